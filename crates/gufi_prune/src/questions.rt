//! What passes over rows for the questions of `find` and SELECT.
ghost use Rattle.std.specs.Prelude.{◌≡◌, ℕ, true, IfOk};
ghost use Rattle.gufi_base.specs.declared.record.Row.{Row};
ghost use Rattle.gufi_find.specs.Expressions.{find_holds};
ghost use Rattle.gufi_find.specs.TestHints.{find_hints};
ghost use Rattle.gufi_select.specs.Columns.{select_holds};
ghost use Rattle.gufi_select.specs.ConditionHints.{select_hints};
ghost use Rattle.gufi_select.specs.Depths.{select_depth};
ghost use Rattle.gufi_prune.specs.NoMatch.{may_meet_at};

use crate::pruner::Pruner;
use gufi_base::Memory;
use gufi_find::FindExpr;
use gufi_select::Select;
use std::alloc::Global;

/// Passes over rows for which an expression can't be true: by their sum, and by its bound of depth.
pub fn find_pruner(alloc: Global, expression: &FindExpr) -> Result<Pruner, Memory>
    ensures exact { IfOk result (λ pruner. pruner ≡ record { hints = find_hints expression.now; deepest = expression.now.most_depth }) }
    ensures met { IfOk result (λ pruner. (row : Row) (depth : ℕ) → find_holds expression.now row depth ≡ true → may_meet_at pruner row depth ≡ true) }
{
    let hints = expression.hints(alloc)?;
    let pruner = Pruner::of(alloc, hints)?;
    Ok(pruner.no_deeper(expression.max_depth()))
}

/// Passes over rows that a SELECT can't choose: by their sum, and by its comparisons of `level`.
pub fn select_pruner(alloc: Global, select: &Select) -> Result<Pruner, Memory>
    ensures exact { IfOk result (λ pruner. pruner ≡ record { hints = select_hints select.now; deepest = select_depth select.now }) }
    ensures met { IfOk result (λ pruner. (row : Row) (depth : ℕ) → select_holds select.now row depth ≡ true → may_meet_at pruner row depth ≡ true) }
{
    let hints = select.hints(alloc)?;
    let pruner = Pruner::of(alloc, hints)?;
    Ok(pruner.no_deeper(select.max_depth()))
}
