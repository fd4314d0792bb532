//! What sums can tell of tests.
ghost use Rattle.std.specs.Prelude.{◌≡◌, ◌++◌, List, OnOk};
ghost use Rattle.std.specs.List.{flat_map};
ghost use Rattle.gufi_base.specs.declared.hint.Hint.{Hint};
ghost use Rattle.gufi_formula.specs.Hints.{AreWhole};
ghost use Rattle.gufi_formula.specs.StepHints.{step_hints};

use crate::step::Step;
use gufi_base::{Hint, Memory};

/// A test that has hints.
pub trait Hinted {
    /// What sums can bound of it, in postfix order.
    ghost hints: { Self → List Hint };

    /// Appends its hints.
    fn put_hints(&self, out: &mut Vec<Hint>) -> Result<(), Memory>
        ensures { OnOk result (out.new.items ≡ out.old.items ++ hints self.now) };

    /// They read to one formula.
    ghost are_whole: { (test : Self) → AreWhole (hints test) };
}

/// Appends the hints of a step.
fn put_step<T: Hinted>(out: &mut Vec<Hint>, step: &Step<T>) -> Result<(), Memory>
    ensures { OnOk result (out.new.items ≡ out.old.items ++ step_hints T.hints step.now) }
{
    match step {
        Step::Invert => out.push(Hint::Not)?,
        Step::IfTrue(test, _) | Step::IfFalse(test, _) => test.put_hints(out)?,
        Step::BothEnd => out.push(Hint::And)?,
        Step::EitherEnd => out.push(Hint::Or)?,
    }
    Ok(())
}

/// Appends the hints of steps.
pub(crate) fn put_steps<T: Hinted>(out: &mut Vec<Hint>, steps: &[Step<T>]) -> Result<(), Memory>
    ensures { OnOk result (out.new.items ≡ out.old.items ++ flat_map (step_hints T.hints) steps.now) }
{
    'steps: for step in steps {
        put_step(out, step)?;
    }
    Ok(())
}
