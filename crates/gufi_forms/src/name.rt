//! The names of columns.

ghost use Rattle.std.specs.Prelude.{◌≡◌, Some};
ghost use Rattle.gufi_base.specs.Basics.{lookup};
ghost use Rattle.gufi_select.specs.Names.{columns};
ghost use Rattle.gufi_forms.specs.Names.{column_name, is_named, first_twice};

use crate::column_text::ColumnText;
use gufi_base::{Memory, put};
use gufi_select::{Column, Select};

/// The name of a column, in lower case, as a SELECT spells it.
pub fn column_name(column: Column) -> &'static str
    ensures name { result.now ≡ column_name column }
    ensures reads_back { lookup result.now columns ≡ Some column }
{
    match column {
        Column::Path => "path",
        Column::Name => "name",
        Column::Kind => "type",
        Column::Inode => "inode",
        Column::Mode => "mode",
        Column::Nlink => "nlink",
        Column::Uid => "uid",
        Column::Gid => "gid",
        Column::Size => "size",
        Column::Blksize => "blksize",
        Column::Blocks => "blocks",
        Column::Atime => "atime",
        Column::Mtime => "mtime",
        Column::Ctime => "ctime",
        Column::Linkname => "linkname",
        Column::Xattrs => "xattrs",
        Column::Level => "level",
    }
}

/// The names of columns, as what stands for them in a line.
#[derive(Clone, Copy)]
pub(crate) struct ColumnNames;

impl ColumnText for ColumnNames {
    ghost text = { λ _ column. column_name column };

    fn put(&self, column: Column, out: &mut Vec<u8>) -> Result<(), Memory> {
        put(out, column_name(column).as_bytes())
    }
}

/// Whether one of the columns has a name.
fn is_named(name: &str, columns: &[Column]) -> bool
    ensures { result ≡ is_named name.now columns.now }
{
    columns.iter().any(|column| column_name(*column) == name)
}

/// The first column of a SELECT that it names once more further back.
#[tactic(auto, using(crate::proofs::Names::stands_again, crate::proofs::Names::stands_once))]
pub fn first_twice(select: &Select) -> Option<Column>
    ensures { result ≡ first_twice select.now.columns }
{
    let columns = select.columns();
    for (place, column) in columns.iter().enumerate() {
        if is_named(column_name(*column), &columns[place + 1..]) {
            return Some(*column);
        }
    }
    None
}
