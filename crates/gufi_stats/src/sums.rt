//! Sums by a number, to which rows and other sums are joined.

ghost use Rattle.std.specs.Prelude.{◌≡◌, ℕ, ◌+◌, ◌^◌, ◌<◌, ◌++◌, [], IfOk, OnOk, OnErr};
ghost use Rattle.gufi_sums.specs.Total.{meta_total, rows_in, IsBounded};
ghost use Rattle.gufi_stats.specs.Grouped.{sum_in, rows_counted, group_lines, sum_line};
ghost use Rattle.gufi_stats.specs.Joined.{joined, all_joined, AreBounded};
ghost use Rattle.gufi_stats.specs.Labels.{label_text};

use crate::label::{Label, put_label};
use gufi_base::{Memory, Meta};
use gufi_sums::{Summary, put_counts};
use std::alloc::Global;
use std::collections::BTreeMap;
use std::marker::Model;
use std::mem;

/// The sum of rows of one number that came one behind the other.
#[derive(Clone, Copy)]
struct Run {
    number: u64,
    sum: Summary,
}

impl Run {
    /// That of one row.
    fn of(number: u64, meta: &Meta) -> Run
        ensures number { result.number ≡ number }
        ensures sum { result.sum ≡ meta_total meta.now }
        ensures bounded { IsBounded result.sum }
    {
        let mut sum = Summary::empty();
        sum.add(meta);
        Run { number, sum }
    }
}

/// A sum of records for each number under which one was added. Contracts see the numbers, ascending, with their sums.
///
/// The records that came last have a sum of their own as long as they have one number: most have the number of the one
/// before them.
#[derive(Drop)]
pub struct NumberSums {
    sums: BTreeMap<u64, Summary>,
    last: Option<Run>,
}

impl Model for NumberSums {
    ghost use Rattle.std.specs.Prelude.{ℕ, List};
    ghost use Rattle.gufi_sums.specs.declared.summary.Summary.{Summary};
    ghost use Rattle.gufi_stats.specs.Joined.{with_run, AreKept};

    ghost Value = { List (ℕ × Summary) };

    ghost view = { λ g. with_run g.sums.entries g.last };

    ghost invariant = { λ g. AreKept g.sums.entries g.last };
}

/// The sum that stands at a number.
fn sum_at(sums: &BTreeMap<u64, Summary>, number: u64) -> Summary
    ensures { result ≡ sum_in sums.now.entries number }
{
    match sums.get(&number) {
        Some(sum) => *sum,
        None => Summary::empty(),
    }
}

/// Joins a sum to that at a number.
fn join_sum(sums: &mut BTreeMap<u64, Summary>, number: u64, more: &Summary) -> Result<(), Memory>
    requires room { rows_in (sum_in sums.old.entries number) + rows_in more.now < 2 ^ 40 }
    requires in_bounds { AreBounded sums.old.entries }
    requires more_in_bounds { IsBounded more.now }
    ensures joined { OnOk result (sums.new.entries ≡ joined sums.old.entries number more.now) }
    ensures bounded { OnOk result (AreBounded sums.new.entries) }
    ensures unchanged { OnErr result (sums.new.entries ≡ sums.old.entries) }
{
    let mut sum = sum_at(sums, number);
    sum.join(more);
    sums.insert(number, sum)?;
    Ok(())
}

/// Joins each sum, at its number less so many.
fn join_all(
    sums: &mut BTreeMap<u64, Summary>,
    more: &BTreeMap<u64, Summary>,
    less: u64,
) -> Result<(), Memory>
    requires room { (n : ℕ) → rows_in (sum_in sums.old.entries n) + rows_counted more.now.entries < 2 ^ 40 }
    requires in_bounds { AreBounded sums.old.entries }
    requires more_in_bounds { AreBounded more.now.entries }
    ensures joined { OnOk result (sums.new.entries ≡ all_joined less sums.old.entries more.now.entries) }
    ensures bounded { OnOk result (AreBounded sums.new.entries) }
{
    for (number, sum) in more {
        join_sum(sums, number.saturating_sub(less), sum)?;
    }
    Ok(())
}

impl NumberSums {
    /// No sum.
    pub fn new(alloc: Global) -> NumberSums
        ensures { result ≡ [] }
    {
        NumberSums {
            sums: BTreeMap::new(alloc),
            last: None,
        }
    }

    /// Begins a run with a row, and joins the run before it.
    fn begin(&mut self, number: u64, meta: &Meta) -> Result<(), Memory>
        requires { (n : ℕ) → rows_in (sum_in self.old n) < 2 ^ 40 }
        ensures { OnOk result (self.new ≡ joined self.old number (meta_total meta.now)) }
    {
        if let Some(run) = &self.last {
            join_sum(&mut self.sums, run.number, &run.sum)?;
        }
        self.last = Some(Run::of(number, meta));
        Ok(())
    }

    /// Adds a record under a number: `O(log n)` in the numbers, and `O(1)` where it is that of the record before.
    pub fn add(&mut self, number: u64, meta: &Meta) -> Result<(), Memory>
        requires { (n : ℕ) → rows_in (sum_in self.old n) + 1 < 2 ^ 40 }
        ensures { OnOk result (self.new ≡ joined self.old number (meta_total meta.now)) }
    {
        if let Some(run) = &mut self.last {
            if run.number == number {
                run.sum.add(meta);
                return Ok(());
            }
        }
        self.begin(number, meta)
    }

    /// The sums by their numbers.
    pub fn into_sums(self) -> Result<BTreeMap<u64, Summary>, Memory>
        requires { (n : ℕ) → rows_in (sum_in self n) < 2 ^ 40 }
        ensures sums { IfOk result (λ sums. sums.entries ≡ self) }
        ensures bounded { IfOk result (λ sums. AreBounded sums.entries) }
    {
        let NumberSums { mut sums, last } = self;
        if let Some(run) = last {
            join_sum(&mut sums, run.number, &run.sum)?;
        }
        Ok(sums)
    }

    /// Joins other sums.
    pub fn join(&mut self, alloc: Global, other: NumberSums) -> Result<(), Memory>
        requires { (n : ℕ) → rows_in (sum_in self.old n) + rows_counted other < 2 ^ 40 }
        ensures { OnOk result (self.new ≡ all_joined 0 self.old other) }
    {
        let mut sums = mem::replace(self, NumberSums::new(alloc)).into_sums()?;
        let more = other.into_sums()?;
        join_all(&mut sums, &more, 0)?;
        *self = NumberSums { sums, last: None };
        Ok(())
    }

    /// A line for each number less so many, ascending: its label, and the counts of the rows.
    pub(crate) fn lines(self, alloc: Global, label: Label<'_>, less: u64) -> Result<Vec<u8>, Memory>
        requires { rows_counted self < 2 ^ 40 }
        ensures { IfOk result (λ text. text.items ≡ group_lines (label_text label.entry) (all_joined less [] self)) }
    {
        let sums = self.into_sums()?;
        let mut lower = BTreeMap::new(alloc);
        join_all(&mut lower, &sums, less)?;
        lines_of(alloc, label, &lower)
    }
}

fn put_line(out: &mut Vec<u8>, label: Label<'_>, number: u64, sum: &Summary) -> Result<(), Memory>
    ensures { OnOk result (out.new.items ≡ out.old.items ++ sum_line (label_text label.entry) (number, sum.now)) }
{
    put_label(out, label, number)?;
    out.push(b' ')?;
    put_counts(out, sum)?;
    out.push(b'\n')?;
    Ok(())
}

fn lines_of(
    alloc: Global,
    label: Label<'_>,
    sums: &BTreeMap<u64, Summary>,
) -> Result<Vec<u8>, Memory>
    ensures { IfOk result (λ text. text.items ≡ group_lines (label_text label.entry) sums.now.entries) }
{
    let mut text = Vec::new(alloc);
    for (number, sum) in sums {
        put_line(&mut text, label, *number, sum)?;
    }
    Ok(text)
}
