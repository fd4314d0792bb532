//! Formulas of tests, kept as steps.
use crate::hinted::{Hinted, put_steps};
use crate::step::{Step, has_no_inversion, run};
use crate::valuation::Valuation;
use gufi_base::{Hint, Memory};
use std::alloc::{AllocError, Global};
use std::marker::Model;

/// A formula of tests, which contracts see as their tree. Its truth takes no memory, and no more steps than it has.
#[derive(Drop)]
pub struct Formula<T> {
    first: T,
    steps: Vec<Step<T>>,
    /// Whether it is false wherever its first test is.
    hangs: bool,
}

impl<T> Model for Formula<T> {
    ghost use Rattle.gufi_formula.specs.Formulas.{Formula as Tree};
    ghost use Rattle.gufi_formula.specs.FormulaCodes.{formula_coded};

    ghost Value = { Tree T };

    ghost coded = { formula_coded T.code };

    ghost use Rattle.std.specs.Prelude.{◌≡◌};
    ghost use Rattle.gufi_formula.specs.Formulas.{hangs_on_first};
    ghost use Rattle.gufi_formula.specs.Steps.{formula_in, IsKept};

    ghost view = { λ f. formula_in f.first f.steps.items };

    ghost invariant = { λ f. IsKept f.first f.steps.items × (f.hangs ≡ hangs_on_first (formula_in f.first f.steps.items)) };
}

impl<T: Drop> Formula<T> {
    ghost use Rattle.std.specs.Prelude.{◌≡◌, IfOk};
    ghost use Rattle.gufi_formula.specs.Formulas.{test as test_alone, negation, both, either};

    /// That of one test.
    #[tactic(auto, using(crate::proofs::Running::kept_test))]
    pub fn of(alloc: Global, test: T) -> Formula<T>
        ensures { result ≡ test_alone test }
    {
        Formula {
            first: test,
            steps: Vec::new(alloc),
            hangs: true,
        }
    }

    /// Its negation.
    #[tactic(auto, using(crate::proofs::Running::kept_negation))]
    pub fn inverted(self) -> Result<Formula<T>, AllocError>
        ensures { IfOk result (λ f. f ≡ negation self) }
    {
        let Formula {
            first,
            mut steps,
            ..
        } = self;
        steps.push(Step::Invert)?;
        Ok(Formula {
            first,
            steps,
            hangs: false,
        })
    }

    /// It and another.
    #[tactic(auto, using(crate::proofs::Running::kept_both))]
    pub fn and(self, other: Formula<T>) -> Result<Formula<T>, AllocError>
        ensures { IfOk result (λ f. f ≡ both self other) }
    {
        let Formula {
            first,
            mut steps,
            hangs,
        } = self;
        let Formula {
            first: second,
            steps: mut more,
            ..
        } = other;
        steps.push(Step::IfTrue(second, more.len()))?;
        steps.append(&mut more)?;
        steps.push(Step::BothEnd)?;
        Ok(Formula {
            first,
            steps,
            hangs,
        })
    }

    /// It or another.
    #[tactic(auto, using(crate::proofs::Running::kept_either))]
    pub fn or(self, other: Formula<T>) -> Result<Formula<T>, AllocError>
        ensures { IfOk result (λ f. f ≡ either self other) }
    {
        let Formula {
            first,
            mut steps,
            ..
        } = self;
        let Formula {
            first: second,
            steps: mut more,
            ..
        } = other;
        steps.push(Step::IfFalse(second, more.len()))?;
        steps.append(&mut more)?;
        steps.push(Step::EitherEnd)?;
        Ok(Formula {
            first,
            steps,
            hangs: false,
        })
    }
}

impl<T> Formula<T> {
    ghost use Rattle.std.specs.Prelude.{◌≡◌, Bool, true, false, Some, None, MatchOption};
    ghost use Rattle.gufi_formula.specs.Formulas.{hangs_on_first, holds, is_positive, only_test};

    /// Its test, where it is no more than one.
    #[tactic(auto, using(crate::proofs::Running::kept_alone, crate::proofs::Running::kept_more))]
    pub fn only_test(&self) -> Option<&T>
        ensures { MatchOption result (only_test self.now ≡ None) (λ test. only_test self.now ≡ Some test.now) }
    {
        if self.steps.is_empty() {
            Some(&self.first)
        } else {
            None
        }
    }

    /// Whether it has no negation. Looks at each of its steps.
    #[tactic(auto, using(crate::proofs::Running::kept_positive))]
    pub fn is_positive(&self) -> bool
        ensures { result ≡ is_positive self.now }
    {
        has_no_inversion(self.steps.as_slice())
    }

    /// Its first test, where it is false wherever that is: as for one test alone, or the first of an "and".
    #[tactic(auto, using(crate::proofs::Running::hung))]
    pub fn hanging_test(&self) -> Option<&T>
        ensures { MatchOption result (hangs_on_first self.now ≡ false) (λ test. (truth : T → Bool) → truth test.now ≡ false → holds truth self.now ≡ false) }
    {
        if self.hangs { Some(&self.first) } else { None }
    }

    /// Whether its first test tells that it is false, which that of an "and" may. Looks at no other.
    ///
    /// Made part of its callers, so that what the first test looks at needn't go through memory.
    #[inline(always)]
    #[tactic(auto, using(crate::proofs::Running::hung))]
    pub fn fails_at_first<V: Valuation<T>>(&self, valuation: &V) -> bool
        ensures { result ≡ true → holds (V.truth valuation.now) self.now ≡ false }
    {
        self.hangs && !valuation.is_true(&self.first)
    }

    /// Whether it is true where its tests have these truths.
    #[tactic(auto, using(crate::proofs::Running::run_holds))]
    pub fn is_true<V: Valuation<T>>(&self, valuation: &V) -> bool
        ensures { result ≡ holds (V.truth valuation.now) self.now }
    {
        let first = valuation.is_true(&self.first);
        run(self.steps.as_slice(), first, valuation)
    }
}

impl<T: Hinted> Formula<T> {
    ghost use Rattle.std.specs.Prelude.{◌≡◌, ◌++◌, OnOk};
    ghost use Rattle.gufi_formula.specs.Hints.{postfix, AreWhole};

    /// Appends its hints in postfix order, each sign behind its operands. Looks at each of its steps once.
    #[tactic(auto, using(crate::proofs::HintLemmas::kept_hints, crate::proofs::HintLemmas::postfix_whole))]
    pub fn put_hints(&self, out: &mut Vec<Hint>) -> Result<(), Memory>
        ensures exact { OnOk result (out.new.items ≡ out.old.items ++ postfix T.hints self.now) }
        ensures whole { AreWhole (postfix T.hints self.now) }
    {
        self.first.put_hints(out)?;
        put_steps(out, self.steps.as_slice())?;
        Ok(())
    }
}
