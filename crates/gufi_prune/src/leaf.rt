//! Hints of which it is asked whether they may hold, or whether they may fail.
ghost use Rattle.std.specs.Prelude.{◌≡◌, nat_le, int_le};
ghost use Rattle.gufi_prune.specs.NoMatch.{chance_within, chance_of_kind, chance_of_size, chance_in, chance_alone};
ghost use Rattle.gufi_prune.specs.Normal.{asked_of};

use crate::class::Class;
use gufi_base::{Hint, Kind};
use gufi_formula::Valuation;
use gufi_sums::Summary;

/// A hint, and whether it is to hold or to fail.
#[derive(Clone, Copy)]
pub struct Leaf {
    pub hint: Hint,
    pub wanted: bool,
}

/// The rows of a class among those of a sum.
#[derive(Clone, Copy)]
pub(crate) struct ClassSum<'s> {
    pub(crate) class: Class,
    pub(crate) sum: &'s Summary,
}

/// The rows of a class, whatever a sum that counts some of them tells.
#[derive(Clone, Copy)]
pub(crate) struct ClassAlone {
    pub(crate) class: Class,
}

/// Whether a range may hold, or may fail, of values from a least to a greatest one.
fn may_be_sizes(first: u64, last: u64, pair: Option<(u64, u64)>, wanted: bool) -> bool
    ensures { result ≡ asked_of wanted (chance_within nat_le first last pair) }
{
    match pair {
        None => false,
        Some((least, greatest)) if wanted => { first <= last && first <= greatest && least <= last }
        Some((least, greatest)) => !(first <= least && greatest <= last),
    }
}

fn may_be_times(first: i64, last: i64, pair: Option<(i64, i64)>, wanted: bool) -> bool
    ensures { result ≡ asked_of wanted (chance_within int_le first last pair) }
{
    match pair {
        None => false,
        Some((early, late)) if wanted => { first <= last && first <= late && early <= last }
        Some((early, late)) => !(first <= early && late <= last),
    }
}

fn may_be_ids(first: u32, last: u32, pair: Option<(u32, u32)>, wanted: bool) -> bool
    ensures { result ≡ asked_of wanted (chance_within nat_le first last pair) }
{
    match pair {
        None => false,
        Some((low, high)) if wanted => { first <= last && first <= high && low <= last }
        Some((low, high)) => !(first <= low && high <= last),
    }
}

/// Whether the rows of a class may be of a type, or may be of another.
fn may_be_kind(class: Class, kind: Kind, wanted: bool) -> bool
    ensures { result ≡ asked_of wanted (chance_of_kind class kind) }
{
    match class {
        Class::Others => !wanted || class.has(kind),
        _ => class.has(kind) == wanted,
    }
}

impl<'s> Valuation<Leaf> for ClassSum<'s> {
    ghost truth = { λ c leaf. asked_of leaf.wanted (chance_in c.class c.sum.now leaf.hint) };

    fn is_true(&self, leaf: &Leaf) -> bool {
        let (class, sum, wanted) = (self.class, self.sum, leaf.wanted);
        match leaf.hint {
            Hint::Kind(kind) => may_be_kind(class, kind, wanted),
            Hint::SizeIn(first, last) => match class {
                Class::Files => may_be_sizes(first, last, sum.size, wanted),
                _ => true,
            },
            Hint::MtimeIn(first, last) => may_be_times(first, last, sum.mtime, wanted),
            Hint::UidIn(first, last) => may_be_ids(first, last, sum.uid, wanted),
            Hint::GidIn(first, last) => may_be_ids(first, last, sum.gid, wanted),
            Hint::Unknown | Hint::Not | Hint::And | Hint::Or => true,
        }
    }
}

impl Valuation<Leaf> for ClassAlone {
    ghost truth = { λ c leaf. asked_of leaf.wanted (chance_alone c.class leaf.hint) };

    fn is_true(&self, leaf: &Leaf) -> bool {
        match leaf.hint {
            Hint::Kind(kind) => may_be_kind(self.class, kind, leaf.wanted),
            Hint::SizeIn(..) => !matches!(self.class, Class::Files),
            Hint::MtimeIn(..) | Hint::UidIn(..) | Hint::GidIn(..) => false,
            Hint::Unknown | Hint::Not | Hint::And | Hint::Or => true,
        }
    }
}
