//! A row's values, one by one.

ghost use Rattle.std.specs.Prelude.{◌≡◌, ◌++◌, OnOk};
ghost use Rattle.gufi_select.specs.Columns.{value_in};
ghost use Rattle.gufi_select.specs.Parts.{seen_parts};
ghost use Rattle.gufi_forms.specs.Cells.{cell_value, escaped_value};
ghost use Rattle.gufi_forms.specs.Escapes.{escaped};

use crate::column_text::ColumnText;
use crate::escape::put_escaped;
use gufi_base::{Memory, RowRef, put_i64, put_u64};
use gufi_select::Column;

/// The value of a column of a row, borrowed.
#[derive(Clone, Copy)]
pub(crate) enum Cell<'r> {
    /// A path in two pieces.
    Path(&'r [u8], &'r [u8]),
    Letter(u8),
    Text(&'r [u8]),
    Unsigned(u64),
    Signed(i64),
}

/// The value of a column of a row at its depth.
pub(crate) fn cell_of(row: RowRef<'_>, depth: u64, column: Column) -> Cell<'_>
    ensures { cell_value result ≡ value_in column (seen_parts row.entry depth) }
{
    let meta = row.meta;
    match column {
        Column::Path => Cell::Path(row.stem, row.base),
        Column::Name => Cell::Text(row.base),
        Column::Kind => Cell::Letter(meta.kind.letter()),
        Column::Inode => Cell::Unsigned(meta.inode),
        Column::Mode => Cell::Unsigned(u64::from(meta.mode)),
        Column::Nlink => Cell::Unsigned(meta.nlink),
        Column::Uid => Cell::Unsigned(u64::from(meta.uid)),
        Column::Gid => Cell::Unsigned(u64::from(meta.gid)),
        Column::Size => Cell::Unsigned(meta.size),
        Column::Blksize => Cell::Unsigned(meta.blksize),
        Column::Blocks => Cell::Unsigned(meta.blocks),
        Column::Atime => Cell::Signed(meta.atime),
        Column::Mtime => Cell::Signed(meta.mtime),
        Column::Ctime => Cell::Signed(meta.ctime),
        Column::Linkname => Cell::Text(row.link),
        Column::Xattrs => Cell::Text(row.xattrs),
        Column::Level => Cell::Unsigned(depth),
    }
}

fn put_path(out: &mut Vec<u8>, stem: &[u8], base: &[u8]) -> Result<(), Memory>
    ensures { OnOk result (out.new.items ≡ out.old.items ++ escaped (stem.now ++ base.now)) }
{
    put_escaped(out, stem)?;
    put_escaped(out, base)
}

/// Appends a value: a text escaped, a number in decimal.
fn put_cell(out: &mut Vec<u8>, cell: Cell<'_>) -> Result<(), Memory>
    ensures { OnOk result (out.new.items ≡ out.old.items ++ escaped_value (cell_value cell.entry)) }
{
    match cell {
        Cell::Path(stem, base) => put_path(out, stem, base),
        Cell::Letter(letter) => put_escaped(out, &[letter]),
        Cell::Text(bytes) => put_escaped(out, bytes),
        Cell::Unsigned(number) => put_u64(out, number),
        Cell::Signed(number) => put_i64(out, number),
    }
}

/// A row at its depth, whose texts are escaped.
#[derive(Clone, Copy)]
pub(crate) struct EscapedRow<'r> {
    pub(crate) row: RowRef<'r>,
    pub(crate) depth: u64,
}

impl<'r> ColumnText for EscapedRow<'r> {
    ghost text = { λ r column. escaped_value (value_in column (seen_parts r.row r.depth)) };

    fn put(&self, column: Column, out: &mut Vec<u8>) -> Result<(), Memory> {
        put_cell(out, cell_of(self.row, self.depth, column))
    }
}
