//! Lines of columns.

ghost use Rattle.std.specs.Prelude.{◌≡◌, ℕ, ◌∷◌, ◌++◌, List, map, OnOk};
ghost use Rattle.std.specs.List.{flat_map, join_with_byte};
ghost use Rattle.gufi_base.specs.Basics.{line};
ghost use Rattle.gufi_select.specs.declared.column.Column.{Column as SeenColumn};

use gufi_base::{Memory, put, split_first};
use gufi_select::Column;

/// What stands for a column in a line.
pub(crate) trait ColumnText {
    ghost text: { Self → SeenColumn → List ℕ };

    fn put(&self, column: Column, out: &mut Vec<u8>) -> Result<(), Memory>
        ensures { OnOk result (out.new.items ≡ out.old.items ++ text self.now column) };
}

fn put_tabbed<T: ColumnText>(out: &mut Vec<u8>, column: Column, texts: &T) -> Result<(), Memory>
    ensures { OnOk result (out.new.items ≡ out.old.items ++ 9 ∷ T.text texts.now column) }
{
    put(out, b"\t")?;
    texts.put(column, out)
}

/// Columns, each behind a tab.
fn put_others<T: ColumnText>(out: &mut Vec<u8>, columns: &[Column], texts: &T) -> Result<(), Memory>
    ensures { OnOk result (out.new.items ≡ out.old.items ++ flat_map (λ column. 9 ∷ T.text texts.now column) columns.now) }
{
    for column in columns {
        put_tabbed(out, *column, texts)?;
    }
    Ok(())
}

/// Columns with a tab between two.
fn put_columns<T: ColumnText>(
    out: &mut Vec<u8>,
    columns: &[Column],
    texts: &T,
) -> Result<(), Memory>
    ensures { OnOk result (out.new.items ≡ out.old.items ++ join_with_byte 9 (map (T.text texts.now) columns.now)) }
{
    let Some((first, others)) = split_first(columns) else {
        return Ok(());
    };
    texts.put(*first, out)?;
    put_others(out, others, texts)?;
    Ok(())
}

/// Appends what stands for columns, with a tab between two, and a newline.
pub(crate) fn put_line<T: ColumnText>(
    out: &mut Vec<u8>,
    columns: &[Column],
    texts: &T,
) -> Result<(), Memory>
    ensures { OnOk result (out.new.items ≡ out.old.items ++ line (join_with_byte 9 (map (T.text texts.now) columns.now))) }
{
    put_columns(out, columns, texts)?;
    put(out, b"\n")
}
