//! What stands open since the last opening parenthesis.
ghost use Rattle.std.specs.Prelude.{◌≡◌, ◌<◌, IfOk, nat_le, reverse};
ghost use Rattle.gufi_base.specs.Limits.{max_nesting};
ghost use Rattle.gufi_formula.specs.Formulas.{both, either};
ghost use Rattle.gufi_formula.specs.Levels.{new_level, joined_formula, negated_formula, with_term, with_or, with_not, level_formula, closed_into, open_ones};

use crate::formula::Formula;
use std::alloc::AllocError;

/// How many constructs may be open.
const MAX_NESTING: usize = 64;

/// The terms joined by "or", those joined by "and" behind them, and how many "not" wait for their term.
#[derive(Drop)]
pub struct Level<T> {
    ors: Option<Formula<T>>,
    ands: Option<Formula<T>>,
    nots: usize,
}

fn joined_by_and<T: Drop>(
    front: Option<Formula<T>>,
    last: Formula<T>,
) -> Result<Formula<T>, AllocError>
    ensures { IfOk result (λ f. f ≡ joined_formula both front last) }
{
    match front {
        Some(front) => front.and(last),
        None => Ok(last),
    }
}

fn joined_by_or<T: Drop>(
    front: Option<Formula<T>>,
    last: Formula<T>,
) -> Result<Formula<T>, AllocError>
    ensures { IfOk result (λ f. f ≡ joined_formula either front last) }
{
    match front {
        Some(front) => front.or(last),
        None => Ok(last),
    }
}

/// The formula behind so many "not".
#[tactic(auto, using(crate::proofs::LevelLemmas::negated_more))]
fn negated<T: Drop>(nots: usize, formula: Formula<T>) -> Result<Formula<T>, AllocError>
    ensures { IfOk result (λ f. f ≡ negated_formula nots formula) }
{
    let mut negated = formula;
    'nots: for _ in 0..nots {
        negated = negated.inverted()?;
    }
    Ok(negated)
}

impl<T: Drop> Level<T> {
    pub(crate) fn new() -> Level<T>
        ensures { result ≡ new_level }
    {
        Level {
            ors: None,
            ands: None,
            nots: 0,
        }
    }

    /// A term is complete.
    pub(crate) fn with_term(self, term: Formula<T>) -> Result<Level<T>, AllocError>
        ensures { IfOk result (λ level. level ≡ with_term term self) }
    {
        let Level { ors, ands, nots } = self;
        let term = negated(nots, term)?;
        let ands = joined_by_and(ands, term)?;
        Ok(Level {
            ors,
            ands: Some(ands),
            nots: 0,
        })
    }

    /// Its formula, where it has a term.
    pub(crate) fn formula(self) -> Result<Option<Formula<T>>, AllocError>
        ensures { IfOk result (λ f. f ≡ level_formula self) }
    {
        let Level { ors, ands, nots: _ } = self;
        match ands {
            Some(ands) => Ok(Some(joined_by_or(ors, ands)?)),
            None => Ok(None),
        }
    }

    /// "or" behind it.
    pub(crate) fn with_or(self) -> Result<Level<T>, AllocError>
        ensures { IfOk result (λ level. level ≡ with_or self) }
    {
        let ors = self.formula()?;
        Ok(Level {
            ors,
            ands: None,
            nots: 0,
        })
    }

    /// "not" behind it.
    pub(crate) fn with_not(self) -> Level<T>
        requires { self.nots < 64 }
        ensures { result ≡ with_not self }
    {
        Level {
            ors: self.ors,
            ands: self.ands,
            nots: self.nots + 1,
        }
    }

    /// A closing parenthesis completes a term of it.
    pub(crate) fn closed_by(self, term: Option<Formula<T>>) -> Result<Level<T>, AllocError>
        ensures { IfOk result (λ level. level ≡ closed_into term self) }
    {
        match term {
            Some(term) => self.with_term(term),
            None => Ok(self),
        }
    }
}

/// Whether as many constructs are open as may be, where the innermost level outside is the last.
pub(crate) fn is_full<T>(level: &Level<T>, outer: &[Level<T>]) -> bool
    ensures { result ≡ nat_le max_nesting (open_ones level.now (reverse outer.now)) }
{
    let mut left = MAX_NESTING
        .saturating_sub(outer.len())
        .saturating_sub(level.nots);
    'levels: for other in outer {
        left = left.saturating_sub(other.nots);
    }
    left == 0
}
