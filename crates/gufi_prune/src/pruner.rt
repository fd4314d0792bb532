//! What passes over rows by their sum.
ghost use Rattle.std.specs.Prelude.{◌≡◌, ◌<◌, ◌^◌, ℕ, not, false, Option, None, IfOk};
ghost use Rattle.gufi_formula.specs.Hints.{AreWhole, chance_or, formula_of};
ghost use Rattle.gufi_sums.specs.declared.summary.Summary.{Summary as Sum};
ghost use Rattle.gufi_prune.specs.declared.class.Class.TheVariants.{Dirs};
ghost use Rattle.gufi_prune.specs.NoMatch.{always_may_meet, chance_in, fits, is_below, may_meet, may_meet_at, no_match};
ghost use Rattle.gufi_prune.specs.Laws.{no_match-sound, no_match-parts, met-within};

use crate::class::Class;
use crate::leaf::{ClassAlone, ClassSum, Leaf};
use crate::sides::formula_of;
use gufi_base::{Hint, Memory};
use gufi_formula::Formula;
use gufi_sums::{Skip, Summary};
use std::alloc::Global;
use std::marker::Model;

/// Passes over rows whose sum shows that none of them meets a question, and over what lies deeper below the start than a row that
/// meets it may.
///
/// It is made once for a question; a look at a sum takes no memory, and at most four looks at each hint.
#[derive(Drop)]
pub struct Pruner {
    hints: Vec<Hint>,
    /// Where the hints hold, without negations.
    formula: Formula<Leaf>,
    deepest: Option<u32>,
}

impl Model for Pruner {
    ghost use Rattle.gufi_prune.specs.NoMatch.{Pruning};
    ghost use Rattle.gufi_prune.specs.Normal.{IsNormal};

    ghost Value = { Pruning };

    ghost view = { λ p. record { hints = p.hints.items; deepest = p.deepest } };

    ghost invariant = { λ p. IsNormal p.hints.items p.formula };
}

/// The numbers of a sum are in the ranges of their types: the definitions speak of all numbers.
fn fits(sum: &Summary) -> bool
    ensures { result ≡ fits sum.now }
{
    let sizes = match sum.size {
        Some((_, greatest)) => greatest <= u64::MAX,
        None => true,
    };
    let times = match sum.mtime {
        Some((least, greatest)) => i64::MIN <= least && greatest <= i64::MAX,
        None => true,
    };
    sizes && times && ids_fit(sum.uid) && ids_fit(sum.gid)
}

fn ids_fit(ids: Option<(u32, u32)>) -> bool
    ensures { result ≡ is_below (2 ^ 32) ids }
{
    match ids {
        Some((_, greatest)) => greatest <= u32::MAX,
        None => true,
    }
}

impl Pruner {
    /// That of the hints of a question, in postfix order: each sign finds its operands, and one result is left.
    pub fn of(alloc: Global, hints: Vec<Hint>) -> Result<Pruner, Memory>
        requires { AreWhole hints.items }
        ensures { IfOk result (λ pruner. pruner ≡ record { hints = hints.items; deepest = None }) }
    {
        let formula = formula_of(alloc, &hints)?;
        Ok(Pruner {
            hints,
            formula,
            deepest: None,
        })
    }

    /// The same where no row that meets the question lies deeper below the start than this, if it is told.
    pub fn no_deeper(self, deepest: Option<u32>) -> Pruner
        ensures { result ≡ record { hints = self.hints; deepest = deepest } }
    {
        Pruner {
            hints: self.hints,
            formula: self.formula,
            deepest,
        }
    }

    /// Whether the hints may hold of the rows of a class.
    fn may_hold(&self, sum: &Summary, class: Class) -> bool
        ensures { result ≡ (chance_or (chance_in class sum.now) (formula_of self.now.hints)).holds }
    {
        self.formula.is_true(&ClassSum { class, sum })
    }

    /// Whether a row of a class may meet them.
    fn may_meet(&self, sum: &Summary, class: Class) -> bool
        ensures { result ≡ may_meet self.now.hints sum.now class }
    {
        class.count(sum) > 0 && self.may_hold(sum, class)
    }

    /// Whether rows of a class may meet them whatever their sum.
    fn always_may_meet(&self, class: Class) -> bool
        ensures { result ≡ always_may_meet self.now.hints class }
    {
        self.formula.is_true(&ClassAlone { class })
    }

    /// Whether in no class of rows that the sum counts the hints may hold.
    #[tactic(auto, unfolding(crate::specs::NoMatch::no_match))]
    fn rules_out(&self, sum: &Summary) -> bool
        ensures { result ≡ no_match self.now.hints sum.now }
    {
        fits(sum)
            && !(self.may_meet(sum, Class::Dirs)
                || self.may_meet(sum, Class::Files)
                || self.may_meet(sum, Class::Links)
                || self.may_meet(sum, Class::Others))
    }
}

impl Skip for Pruner {
    ghost query = { may_meet_at };

    ghost skips = { λ pruning sum. no_match pruning.hints sum };

    ghost sound = { no_match-sound };

    ghost parts = { λ pruning. no_match-parts pruning.hints };

    ghost deepest = { λ pruning. pruning.deepest };

    ghost bounded = { met-within };

    fn none_match(&self, sum: &Summary) -> bool {
        self.rules_out(sum)
    }

    /// False exactly where directories may meet the hints whatever their sum.
    fn asks_sums(&self) -> bool
        ensures exact { result ≡ not (always_may_meet self.now.hints Dirs) }
        ensures sound { result ≡ false → (sum : Sum) → 0 < sum.dirs → no_match self.now.hints sum ≡ false }
    {
        !self.always_may_meet(Class::Dirs)
    }

    fn deepest(&self) -> Option<u32> {
        self.deepest
    }
}
