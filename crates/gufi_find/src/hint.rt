//! What sums can bound of an expression.
ghost use Rattle.std.specs.Prelude.{◌≡◌, ◌+◌, ◌*◌, ◌+ℤ◌, ℕ, pos, IfOk, true};
ghost use Rattle.gufi_base.specs.declared.record.Row.{Row};
ghost use Rattle.gufi_formula.specs.Hints.{AreWhole, may_hold};
ghost use Rattle.gufi_find.specs.Expressions.{find_holds};
ghost use Rattle.gufi_find.specs.Tests.{unit_bytes};
ghost use Rattle.gufi_find.specs.TestHints.{size_hint, mtime_hint, latest, test_hint, find_hints};

use crate::comparison::{Comparison, SizeUnit};
use crate::expression::FindExpr;
use crate::test::Test;
use gufi_base::{Hint, Memory};
use gufi_formula::{Hinted, sizes_in, times_in};
use std::alloc::Global;

/// So many units, in bytes.
fn bytes_in(unit: SizeUnit, count: u64) -> i128
    ensures { result ≡ pos (count * unit_bytes unit) }
{
    i128::from(count) * i128::from(unit.bytes())
}

/// The last second that is so many days and one before the moment.
fn latest_behind(now: i64, days: u64) -> i128
    ensures { result ≡ latest now (days + 1) }
{
    i128::from(now) - (i128::from(days) + 1) * 86400
}

/// The last second that is so many days before the moment, rounded toward zero.
fn latest(now: i64, days: u64) -> i128
    ensures { result ≡ latest now days }
{
    if days == 0 {
        return i128::from(now) + 86399;
    }
    i128::from(now) - i128::from(days) * 86400
}

/// The second behind the last that is so many days and one before the moment.
fn first_behind(now: i64, days: u64) -> i128
    ensures { result ≡ latest now (days + 1) +ℤ pos 1 }
{
    latest_behind(now, days) + 1
}

/// The second behind the last that is so many days before the moment.
fn first_later(now: i64, days: u64) -> i128
    ensures { result ≡ latest now days +ℤ pos 1 }
{
    latest(now, days) + 1
}

fn size_hint(unit: SizeUnit, comparison: Comparison) -> Hint
    ensures { result ≡ size_hint (unit_bytes unit) comparison }
{
    match comparison {
        Comparison::EqualTo(0) => Hint::SizeIn(0, 0),
        Comparison::EqualTo(count) => {
            sizes_in(bytes_in(unit, count - 1) + 1, bytes_in(unit, count))
        }
        Comparison::MoreThan(count) => { sizes_in(bytes_in(unit, count) + 1, i128::from(u64::MAX)) }
        Comparison::LessThan(0) => Hint::SizeIn(1, 0),
        Comparison::LessThan(count) => sizes_in(0, bytes_in(unit, count - 1)),
    }
}

fn mtime_hint(now: i64, comparison: Comparison) -> Hint
    ensures { result ≡ mtime_hint now comparison }
{
    match comparison {
        Comparison::EqualTo(days) => times_in(first_behind(now, days), latest(now, days)),
        Comparison::MoreThan(days) => times_in(i128::from(i64::MIN), latest_behind(now, days)),
        Comparison::LessThan(days) => times_in(first_later(now, days), i128::from(i64::MAX)),
    }
}

fn test_hint(test: &Test) -> Hint
    ensures { result ≡ test_hint test.now }
{
    match test {
        Test::Always => Hint::SizeIn(0, u64::MAX),
        Test::KindIs(kind) => Hint::Kind(*kind),
        Test::SizeIs(unit, comparison) => size_hint(*unit, *comparison),
        Test::MtimeIs(now, comparison) => mtime_hint(*now, *comparison),
        Test::UserIs(uid) => Hint::UidIn(*uid, *uid),
        Test::GroupIs(gid) => Hint::GidIn(*gid, *gid),
        _ => Hint::Unknown,
    }
}

impl Hinted for Test {
    ghost use Rattle.gufi_find.specs.TestHints.{test_hints};
    ghost use Rattle.gufi_find.specs.WholeHints.{tests_whole};

    ghost hints = { test_hints };

    ghost are_whole = { tests_whole };

    fn put_hints(&self, out: &mut Vec<Hint>) -> Result<(), Memory> {
        out.push(test_hint(self))?;
        Ok(())
    }
}

impl FindExpr {
    /// What sums can tell of it, in postfix order: of its tests of types, sizes, times of the last change, users and groups.
    /// The bounds of depth are left out.
    #[tactic(auto, using(crate::proofs::HintLemmas::find_may_hold))]
    pub fn hints(&self, alloc: Global) -> Result<Vec<Hint>, Memory>
        ensures exact { IfOk result (λ hints. hints.items ≡ find_hints self.now) }
        ensures whole { IfOk result (λ hints. AreWhole hints.items) }
        ensures sound { IfOk result (λ hints. (row : Row) (depth : ℕ) → find_holds self.now row depth ≡ true → may_hold hints.items row ≡ true) }
    {
        let mut hints = Vec::new(alloc);
        self.formula.put_hints(&mut hints)?;
        Ok(hints)
    }
}
