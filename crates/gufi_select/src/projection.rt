//! What is printed of the rows that a SELECT chooses.
ghost use Rattle.std.specs.Prelude.{◌≡◌, ◌++◌, IfOk, OnOk};
ghost use Rattle.std.specs.List.{flat_map};
ghost use Rattle.gufi_base.specs.Basics.{line};
ghost use Rattle.gufi_base.specs.Rows.{depth_below};
ghost use Rattle.gufi_select.specs.Columns.{projected, select_lines};
ghost use Rattle.gufi_select.specs.Lines.{column_text, tabbed_text, columns_text};
ghost use Rattle.gufi_select.specs.Parts.{seen_parts};

use crate::column::Column;
use crate::select::Select;
use gufi_base::{Memory, Path, Row, RowRef, put, put_i64, put_u64, split_first};
use gufi_rows::{RowLine, depth_of, parts_of};
use std::alloc::Global;

/// The printed path of a row.
fn put_path(out: &mut Vec<u8>, row: RowRef<'_>) -> Result<(), Memory>
    ensures { OnOk result (out.new.items ≡ out.old.items ++ (row.entry.stem.now ++ row.entry.base.now)) }
{
    put(out, row.stem)?;
    put(out, row.base)
}

/// The value of a column. Numbers are decimal.
fn put_value(out: &mut Vec<u8>, column: Column, row: RowRef<'_>, depth: u64) -> Result<(), Memory>
    ensures { OnOk result (out.new.items ≡ out.old.items ++ column_text (seen_parts row.entry depth) column) }
{
    let meta = row.meta;
    match column {
        Column::Path => put_path(out, row),
        Column::Name => put(out, row.base),
        Column::Kind => put(out, &[meta.kind.letter()]),
        Column::Inode => put_u64(out, meta.inode),
        Column::Mode => put_u64(out, u64::from(meta.mode)),
        Column::Nlink => put_u64(out, meta.nlink),
        Column::Uid => put_u64(out, u64::from(meta.uid)),
        Column::Gid => put_u64(out, u64::from(meta.gid)),
        Column::Size => put_u64(out, meta.size),
        Column::Blksize => put_u64(out, meta.blksize),
        Column::Blocks => put_u64(out, meta.blocks),
        Column::Atime => put_i64(out, meta.atime),
        Column::Mtime => put_i64(out, meta.mtime),
        Column::Ctime => put_i64(out, meta.ctime),
        Column::Linkname => put(out, row.link),
        Column::Xattrs => put(out, row.xattrs),
        Column::Level => put_u64(out, depth),
    }
}

fn put_tabbed(out: &mut Vec<u8>, column: Column, row: RowRef<'_>, depth: u64) -> Result<(), Memory>
    ensures { OnOk result (out.new.items ≡ out.old.items ++ tabbed_text (seen_parts row.entry depth) column) }
{
    put(out, b"\t")?;
    put_value(out, column, row, depth)
}

/// Columns, each behind a tab.
fn put_others(
    out: &mut Vec<u8>,
    columns: &[Column],
    row: RowRef<'_>,
    depth: u64,
) -> Result<(), Memory>
    ensures { OnOk result (out.new.items ≡ out.old.items ++ flat_map (tabbed_text (seen_parts row.entry depth)) columns.now) }
{
    'columns: for column in columns {
        put_tabbed(out, *column, row, depth)?;
    }
    Ok(())
}

/// Columns with a tab between two.
fn put_columns(
    out: &mut Vec<u8>,
    columns: &[Column],
    row: RowRef<'_>,
    depth: u64,
) -> Result<(), Memory>
    ensures { OnOk result (out.new.items ≡ out.old.items ++ columns_text (seen_parts row.entry depth) columns.now) }
{
    let Some((first, others)) = split_first(columns) else {
        return Ok(());
    };
    put_value(out, *first, row, depth)?;
    put_others(out, others, row, depth)?;
    Ok(())
}

fn put_line(out: &mut Vec<u8>, select: &Select, row: RowRef<'_>, depth: u64) -> Result<(), Memory>
    ensures { OnOk result (out.new.items ≡ out.old.items ++ line (columns_text (seen_parts row.entry depth) select.now.columns)) }
{
    put_columns(out, select.columns.as_slice(), row, depth)?;
    put(out, b"\n")
}

impl Select {
    /// Appends the line of a row: its columns in order, with a tab between two, and a newline.
    ///
    /// Numbers are printed in decimal, the mode too. The depth is how many components the row lies below the start.
    /// The buffer takes its own memory; where there is none, it may hold a part of the line.
    #[tactic(auto, using(crate::proofs::LineLemmas::line_of_parts))]
    pub fn put(
        &self,
        _alloc: Global,
        row: &Row,
        depth: u32,
        out: &mut Vec<u8>,
    ) -> Result<(), Memory>
        ensures { OnOk result (out.new.items ≡ out.old.items ++ projected self.now row.now depth) }
    {
        put_line(out, self, parts_of(row), u64::from(depth))?;
        Ok(())
    }
}

/// The line that a SELECT prints of a row, at its depth below a start of so many components.
#[derive(Clone, Copy)]
pub struct SelectLine<'s> {
    pub select: &'s Select,
    pub above: usize,
}

impl<'s> RowLine for SelectLine<'s> {
    ghost line = { λ l row. projected l.select.now row (depth_below l.above row) };

    #[tactic(auto, using(crate::proofs::LineLemmas::line_of_parts))]
    fn put(&self, row: RowRef<'_>, out: &mut Vec<u8>) -> Result<(), Memory> {
        let depth = depth_of(row).saturating_sub(self.above);
        put_line(out, self.select, row, depth as u64)?;
        Ok(())
    }
}

/// The lines of rows, in the order given, each at its depth below the start. One buffer for the whole text.
pub fn select_text(
    alloc: Global,
    select: &Select,
    rows: &[Row],
    start: &Path,
) -> Result<Vec<u8>, Memory>
    ensures { IfOk result (λ text. text.items ≡ select_lines select.now start.now rows.now) }
{
    let line = SelectLine {
        select,
        above: start.depth(),
    };
    let mut text = Vec::new(alloc);
    'rows: for row in rows {
        line.put(parts_of(row), &mut text)?;
    }
    Ok(text)
}
