//! What is printed of rows.

ghost use Rattle.std.specs.Prelude.{◌≡◌, ℕ, ◌++◌, List, OnOk};
ghost use Rattle.gufi_base.specs.declared.record.Row.{Row};
ghost use Rattle.gufi_base.specs.Rows.{Stands, StandsForSome};

use gufi_base::{Memory, RowRef};

/// What is printed of a row.
pub trait RowLine {
    /// What is printed of it: a line, or nothing.
    ghost line: { Self → Row → List ℕ };

    /// Appends what is printed of a row in borrowed parts. Where memory runs out, the text may hold a part of it.
    fn put(&self, row: RowRef<'_>, out: &mut Vec<u8>) -> Result<(), Memory>
        requires { StandsForSome row }
        ensures { OnOk result ((of : Row) → Stands row.entry of → out.new.items ≡ out.old.items ++ line self.now of) };
}
