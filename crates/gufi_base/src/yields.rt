//! What a query gives: a value that rows go into.

ghost use Rattle.std.specs.Prelude.{◌≡◌, ℕ, ◌+◌, ◌^◌, ◌<◌, List, [], ◌∷◌, ◌++◌, length, IfOk, OnOk};
ghost use Rattle.std.specs.List.Sorted.{IsPermutation};
ghost use Rattle.gufi_base.specs.declared.record.Row.{Row};
ghost use Rattle.gufi_base.specs.Rows.{Stands, StandsForSome};

use crate::Memory;
use crate::record::RowRef;
use std::alloc::Global;

/// What a query gives. It stands for lists of rows, whose order is open.
pub trait Yield: Sized + Drop {
    /// How many rows it has.
    ghost count: { Self → ℕ };

    /// For which lists of rows it stands.
    ghost stands_for: { Self → List Row → Type 0 };

    /// That of no row.
    fn none(alloc: Global) -> Result<Self, Memory>
        ensures { IfOk result (λ y. stands_for y []) };

    /// Adds a row.
    fn take(&mut self, alloc: Global, row: RowRef<'_>) -> Result<(), Memory>
        requires row { StandsForSome row }
        requires room { count self.old + 1 < 2 ^ 40 }
        requires rows { (rows : List Row) × stands_for self.old rows }
        ensures { OnOk result ((of : Row) (rows : List Row) → Stands row.entry of →
            stands_for self.old rows → stands_for self.new (rows ++ of ∷ [])) };

    /// Adds the rows of another.
    fn merge(&mut self, alloc: Global, other: Self) -> Result<(), Memory>
        requires room { count self.old + count other < 2 ^ 40 }
        requires rows { (rows : List Row) × stands_for self.old rows }
        requires more { (rows : List Row) × stands_for other rows }
        ensures { OnOk result ((rows more : List Row) → stands_for self.old rows →
            stands_for other more → stands_for self.new (rows ++ more)) };

    /// Puts what it has into the order in which it is read later, where it is cheaper to do so now. It stands for the same
    /// lists.
    fn settle(&mut self, alloc: Global) -> Result<(), Memory>
        ensures { OnOk result ((rows : List Row) → stands_for self.old rows → stands_for self.new rows) };

    /// The count is that of the rows.
    ghost counted: { (y : Self) (rows : List Row) → stands_for y rows → length rows ≡ count y };

    /// The order of the rows is open.
    ghost reordered: { (y : Self) (rows other : List Row) → IsPermutation rows other →
        stands_for y rows → stands_for y other };
}
