//! The steps of a formula.
ghost use Rattle.std.specs.Prelude.{◌≡◌};
ghost use Rattle.std.specs.List.{list_all};
ghost use Rattle.gufi_formula.specs.Steps.{run, is_no_inversion};

use crate::valuation::Valuation;
use gufi_base::{behind, split_first};

/// A step towards the truth of a formula, behind its first test, with the truth so far in hand.
#[derive(Drop)]
pub enum Step<T> {
    /// The truth is turned round.
    Invert,
    /// Where it is true, it becomes that of a test; where it is false, so many steps are passed over.
    IfTrue(T, usize),
    /// Where it is false, it becomes that of a test; where it is true, so many steps are passed over.
    IfFalse(T, usize),
    /// The end of an "and" and of an "or".
    BothEnd,
    EitherEnd,
}

/// Whether no step turns the truth round.
pub(crate) fn has_no_inversion<T>(steps: &[Step<T>]) -> bool
    ensures { result ≡ list_all is_no_inversion steps.now }
{
    for step in steps {
        if let Step::Invert = step {
            return false;
        }
    }
    true
}

/// The truth in the end, from that of the first test.
#[tactic(auto, using(crate::proofs::Running::run_drop))]
pub(crate) fn run<T, V: Valuation<T>>(steps: &[Step<T>], first: bool, valuation: &V) -> bool
    ensures { result ≡ run (V.truth valuation.now) first 0 steps.now }
{
    let mut now = first;
    let mut rest = steps;
    'steps: while let Some((step, others)) = split_first(rest) {
        rest = others;
        match step {
            Step::Invert => now = !now,
            Step::IfTrue(test, _) if now => now = valuation.is_true(test),
            Step::IfFalse(test, _) if !now => now = valuation.is_true(test),
            Step::IfTrue(_, count) | Step::IfFalse(_, count) => rest = behind(others, *count),
            Step::BothEnd | Step::EitherEnd => {}
        }
    }
    now
}
