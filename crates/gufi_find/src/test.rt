//! The tests of an expression.
ghost use Rattle.std.specs.Prelude.{◌≡◌, ◌++◌, ℕ, List, false};
ghost use Rattle.gufi_find.specs.Tests.{is_always, is_of_text, is_true};

use crate::comparison::{Comparison, SizeUnit};
use crate::numbers::NumberSet;
use gufi_base::{Kind, Meta, RowRef};
use gufi_formula::Valuation;
use gufi_glob::Glob;

/// A test of a row. Moments are in seconds since the epoch.
#[derive(Drop)]
pub enum Test {
    /// No words at all.
    Always,
    /// `-mindepth` and `-maxdepth`, which bound the whole expression.
    DepthBound,
    NameMatches(Glob),
    PathMatches(Glob),
    KindIs(Kind),
    SizeIs(SizeUnit, Comparison),
    AtimeIs(i64, Comparison),
    MtimeIs(i64, Comparison),
    CtimeIs(i64, Comparison),
    LinksAre(Comparison),
    ModeIs(u16),
    /// All of these bits are set.
    ModeHas(u16),
    UserIs(u32),
    GroupIs(u32),
    UserNotIn(NumberSet),
    GroupNotIn(NumberSet),
}

impl Test {
    /// Whether it stands for no words at all.
    pub(crate) fn is_always(&self) -> bool
        ensures { result ≡ is_always self.now }
    {
        matches!(self, Test::Always)
    }

    /// Whether it is true of a path with this record, where it is no test of the path's text.
    fn is_true_of_record(&self, meta: &Meta) -> bool
        ensures { is_of_text self.now ≡ false → (path name : List ℕ) → result ≡ is_true self.now path name meta.now }
    {
        match self {
            Test::Always | Test::DepthBound | Test::NameMatches(_) | Test::PathMatches(_) => true,
            Test::KindIs(kind) => kind.letter() == meta.kind.letter(),
            Test::SizeIs(unit, comparison) => comparison.is_met(meta.size.div_ceil(unit.bytes())),
            Test::AtimeIs(now, comparison) => comparison.is_met_by_days(*now, meta.atime),
            Test::MtimeIs(now, comparison) => comparison.is_met_by_days(*now, meta.mtime),
            Test::CtimeIs(now, comparison) => comparison.is_met_by_days(*now, meta.ctime),
            Test::LinksAre(comparison) => comparison.is_met(meta.nlink),
            Test::ModeIs(mode) => meta.mode == *mode,
            Test::ModeHas(mode) => meta.mode & *mode == *mode,
            Test::UserIs(uid) => meta.uid == *uid,
            Test::GroupIs(gid) => meta.gid == *gid,
            Test::UserNotIn(uids) => !uids.contains(meta.uid),
            Test::GroupNotIn(gids) => !gids.contains(meta.gid),
        }
    }
}

/// A row in borrowed parts gives each test its truth.
impl<'r> Valuation<Test> for RowRef<'r> {
    ghost truth = { λ row t. is_true t (row.stem.now ++ row.base.now) row.base.now row.meta.now };

    /// Made part of its callers, so that a row's parts needn't go through memory.
    #[inline(always)]
    fn is_true(&self, test: &Test) -> bool {
        let row = *self;
        match test {
            Test::Always => true,
            Test::NameMatches(pattern) => pattern.matches(&[], row.base),
            Test::PathMatches(pattern) => pattern.matches(row.stem, row.base),
            _ => test.is_true_of_record(row.meta),
        }
    }
}
