//! The forms in which the rows of a query are written.

ghost use Rattle.std.specs.Prelude.{◌≡◌, ◌++◌, IfOk, OnOk};
ghost use Rattle.gufi_base.specs.Basics.{line};
ghost use Rattle.gufi_base.specs.declared.record.Row.{Row as SeenRow};
ghost use Rattle.gufi_base.specs.Rows.{Stands, StandsForSome, depth_below};
ghost use Rattle.gufi_select.specs.Parts.{seen_parts};
ghost use Rattle.gufi_forms.specs.Objects.{object_text};
ghost use Rattle.gufi_forms.specs.Forms.{escaped_columns, form_line, form_header, form_text};

use crate::cell::EscapedRow;
use crate::column_text::put_line;
use crate::name::ColumnNames;
use crate::object::put_object;
use gufi_base::{Memory, Path, Row, RowRef, put};
use gufi_rows::{RowLine, depth_of, parts_of};
use gufi_select::{Column, Select, SelectLine};
use std::alloc::Global;

/// How the rows of a query are written.
#[derive(Clone, Copy, Debug, PartialEq, Eq)]
pub enum Form {
    /// A row a line, with a tab between two columns.
    Lines {
        /// Texts are escaped: a tab as `\t`, a newline as `\n`, a backslash as `\\`, each other byte that isn't printable ASCII
        /// as a backslash and three octal digits.
        escape: bool,
        /// A line of the columns' names stands first.
        header: bool,
    },
    /// A row a line, as a JSON object (RFC 8259) with a member a column, in their order.
    ///
    /// A text that isn't UTF-8 is the string of its escaped form, and `_bytes` stands behind its member's name.
    Json,
}

/// The line of a row in a form, at its depth below a start of so many components.
#[derive(Clone, Copy)]
pub struct FormLine<'s> {
    pub select: &'s Select,
    pub above: usize,
    pub form: Form,
}

impl<'s> FormLine<'s> {
    /// Appends the line that stands before those of the rows, where there is one.
    pub fn put_header(&self, out: &mut Vec<u8>) -> Result<(), Memory>
        ensures { OnOk result (out.new.items ≡ out.old.items ++ form_header self.now.form self.now.select.now) }
    {
        match self.form {
            Form::Lines { header: true, .. } => put_line(out, self.select.columns(), &ColumnNames),
            _ => Ok(()),
        }
    }
}

/// How many components a row lies below a start of so many.
fn depth_below(row: RowRef<'_>, above: usize) -> u64
    requires { StandsForSome row }
    ensures { (of : SeenRow) → Stands row.entry of → result ≡ depth_below above of }
{
    depth_of(row).saturating_sub(above) as u64
}

fn put_escaped_line(
    out: &mut Vec<u8>,
    columns: &[Column],
    row: RowRef<'_>,
    depth: u64,
) -> Result<(), Memory>
    ensures { OnOk result (out.new.items ≡ out.old.items ++ line (escaped_columns (seen_parts row.entry depth) columns.now)) }
{
    put_line(out, columns, &EscapedRow { row, depth })
}

fn put_object_line(
    out: &mut Vec<u8>,
    columns: &[Column],
    row: RowRef<'_>,
    depth: u64,
) -> Result<(), Memory>
    ensures { OnOk result (out.new.items ≡ out.old.items ++ line (object_text (seen_parts row.entry depth) columns.now)) }
{
    put_object(out, columns, row, depth)?;
    put(out, b"\n")
}

impl<'s> RowLine for FormLine<'s> {
    ghost line = { λ l row. form_line l.form l.select.now row (depth_below l.above row) };

    #[tactic(auto, using(crate::proofs::ColumnLines::escaped_of_parts, crate::proofs::ColumnLines::object_of_parts))]
    fn put(&self, row: RowRef<'_>, out: &mut Vec<u8>) -> Result<(), Memory> {
        match self.form {
            Form::Lines { escape: false, .. } => {
                let line = SelectLine {
                    select: self.select,
                    above: self.above,
                };
                line.put(row, out)
            }
            Form::Lines { escape: true, .. } => {
                let depth = depth_below(row, self.above);
                put_escaped_line(out, self.select.columns(), row, depth)
            }
            Form::Json => {
                let depth = depth_below(row, self.above);
                put_object_line(out, self.select.columns(), row, depth)
            }
        }
    }
}

/// What is written of rows in a form, in the order given, each at its depth below the start. One buffer for the whole text.
pub fn form_text(
    alloc: Global,
    form: Form,
    select: &Select,
    rows: &[Row],
    start: &Path,
) -> Result<Vec<u8>, Memory>
    ensures { IfOk result (λ text. text.items ≡ form_text form select.now start.now rows.now) }
{
    let line = FormLine {
        select,
        above: start.depth(),
        form,
    };
    let mut text = Vec::new(alloc);
    line.put_header(&mut text)?;
    for row in rows {
        line.put(parts_of(row), &mut text)?;
    }
    Ok(text)
}
