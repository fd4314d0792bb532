//! Rows as JSON objects.

ghost use Rattle.std.specs.Prelude.{◌≡◌, [], ◌++◌, IfOk, OnOk, string_bytes};
ghost use Rattle.std.specs.List.{flat_map};
ghost use Rattle.gufi_select.specs.declared.condition.Value.TheVariants.{Text};
ghost use Rattle.gufi_select.specs.Columns.{value_in};
ghost use Rattle.gufi_select.specs.Parts.{seen_parts};
ghost use Rattle.gufi_forms.specs.Cells.{cell_value};
ghost use Rattle.gufi_forms.specs.Objects.{bytes_name, object_text};
ghost use Rattle.gufi_forms.specs.ObjectTokens.{bytes_tokens, value_tokens, column_tokens};

use crate::cell::{Cell, cell_of};
use crate::escape::put_escaped;
use crate::name::column_name;
use gufi_base::{Memory, RowRef, put};
use gufi_select::Column;
use json::Writer;
use std::alloc::Global;

/// The name of the member that has a text which isn't UTF-8.
fn bytes_name(alloc: Global, name: &str) -> Result<String, Memory>
    ensures { IfOk result (λ made. string_bytes made ≡ bytes_name name.now) }
{
    let mut made = String::from_str(alloc, name)?;
    made.push_str("_bytes")?;
    Ok(made)
}

/// A member that has bytes as the string of their escaped form.
fn put_bytes(alloc: Global, writer: &mut Writer, name: &str, bytes: &[u8]) -> Result<(), Memory>
    ensures ok { OnOk result (writer.new.tokens ≡ writer.old.tokens ++ bytes_tokens name.now bytes.now) }
    ensures before { writer.new.before ≡ writer.old.before }
{
    let name = bytes_name(alloc, name)?;
    let mut text = Vec::new(alloc);
    put_escaped(&mut text, bytes)?;
    let Ok(text) = str::from_utf8(text.as_slice()) else {
        unreachable!();
    };
    writer.key(name.as_str())?;
    writer.string(text)?;
    Ok(())
}

#[tactic(auto, using(crate::proofs::Objects::is_text, crate::proofs::Objects::is_no_text))]
fn put_text(alloc: Global, writer: &mut Writer, name: &str, bytes: &[u8]) -> Result<(), Memory>
    ensures ok { OnOk result (writer.new.tokens ≡ writer.old.tokens ++ value_tokens name.now (Text bytes.now)) }
    ensures before { writer.new.before ≡ writer.old.before }
{
    let Ok(text) = str::from_utf8(bytes) else {
        return put_bytes(alloc, writer, name, bytes);
    };
    writer.key(name)?;
    writer.string(text)?;
    Ok(())
}

fn put_path(
    alloc: Global,
    writer: &mut Writer,
    name: &str,
    stem: &[u8],
    base: &[u8],
) -> Result<(), Memory>
    ensures ok { OnOk result (writer.new.tokens ≡ writer.old.tokens ++ value_tokens name.now (Text (stem.now ++ base.now))) }
    ensures before { writer.new.before ≡ writer.old.before }
{
    let mut path = Vec::with_capacity(alloc, stem.len() + base.len())?;
    put(&mut path, stem)?;
    put(&mut path, base)?;
    put_text(alloc, writer, name, path.as_slice())
}

fn put_cell(alloc: Global, writer: &mut Writer, name: &str, cell: Cell<'_>) -> Result<(), Memory>
    ensures ok { OnOk result (writer.new.tokens ≡ writer.old.tokens ++ value_tokens name.now (cell_value cell.entry)) }
    ensures before { writer.new.before ≡ writer.old.before }
{
    match cell {
        Cell::Path(stem, base) => put_path(alloc, writer, name, stem, base),
        Cell::Letter(letter) => put_text(alloc, writer, name, &[letter]),
        Cell::Text(bytes) => put_text(alloc, writer, name, bytes),
        Cell::Unsigned(number) => {
            writer.key(name)?;
            writer.u64(number)?;
            Ok(())
        }
        Cell::Signed(number) => {
            writer.key(name)?;
            writer.i64(number)?;
            Ok(())
        }
    }
}

fn put_members(
    alloc: Global,
    writer: &mut Writer,
    columns: &[Column],
    row: RowRef<'_>,
    depth: u64,
) -> Result<(), Memory>
    ensures ok { OnOk result (writer.new.tokens ≡ writer.old.tokens ++ flat_map (column_tokens (seen_parts row.entry depth)) columns.now) }
    ensures before { writer.new.before ≡ writer.old.before }
{
    for column in columns {
        put_cell(
            alloc,
            writer,
            column_name(*column),
            cell_of(row, depth, *column),
        )?;
    }
    Ok(())
}

/// Appends the JSON object of a row, without a space or a newline.
///
/// A member a column, in their order, by the column's name: a number, or a string. A text that isn't UTF-8 is the string of its
/// escaped form, and `_bytes` stands behind its name.
pub(crate) fn put_object(
    out: &mut Vec<u8>,
    columns: &[Column],
    row: RowRef<'_>,
    depth: u64,
) -> Result<(), Memory>
    ensures { OnOk result (out.new.items ≡ out.old.items ++ object_text (seen_parts row.entry depth) columns.now) }
{
    let alloc = *out.allocator();
    let mut writer = Writer::new(Vec::with_capacity(alloc, 256)?);
    writer.begin_object()?;
    put_members(alloc, &mut writer, columns, row, depth)?;
    writer.end_object()?;
    let text = writer.into_inner();
    put(out, text.as_slice())?;
    Ok(())
}
