//! Questions that are put to rows.

ghost use Rattle.std.specs.Prelude.{◌≡◌, ℕ, Bool, true, IfOk};
ghost use Rattle.gufi_base.specs.declared.record.Row.{Row};
ghost use Rattle.gufi_base.specs.Rows.{Stands, StandsForSome};

use crate::Memory;
use crate::record::RowRef;
use std::alloc::Global;

/// Puts one question to row after row, and keeps between them what it needs for the next.
pub trait Tester {
    /// Whether a row at a depth meets the question.
    ghost meets: { Self → Row → ℕ → Bool };

    /// Whether the row at that depth meets it.
    fn test(&mut self, alloc: Global, row: RowRef<'_>, depth: u32) -> Result<bool, Memory>
        requires { StandsForSome row }
        ensures met { IfOk result (λ met. (of : Row) → Stands row.entry of → met ≡ meets self.old of depth) }
        ensures same { meets self.new ≡ meets self.old };
}

/// A question about a row and its depth: how many components it lies below the start of a query.
///
/// Many walkers may share it. Each makes a tester of it, which it keeps for its rows.
pub trait Pred {
    type Tester: Tester + Drop;

    /// Whether a row at a depth meets it.
    ghost sat: { Self → Row → ℕ → Bool };

    /// A tester of the question.
    fn tester(&self, alloc: Global) -> Result<Self::Tester, Memory>
        ensures { IfOk result (λ t. Self.Tester.meets t ≡ sat self.now) };
}

/// The question that every row meets.
#[derive(Clone, Copy, Debug)]
pub struct Always;

impl Tester for Always {
    ghost meets = { λ _ _ _. true };

    fn test(&mut self, _alloc: Global, _row: RowRef<'_>, _depth: u32) -> Result<bool, Memory> {
        Ok(true)
    }
}

impl Pred for Always {
    type Tester = Always;

    ghost sat = { λ _ _ _. true };

    fn tester(&self, _alloc: Global) -> Result<Always, Memory> {
        Ok(Always)
    }
}
