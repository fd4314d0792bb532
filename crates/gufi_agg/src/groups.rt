//! Groups of rows by a number, made as the rows come.
ghost use Rattle.std.specs.Prelude.{◌≡◌, ℕ, ◌^◌, ◌<◌, List, length, map, IfOk};
ghost use Rattle.gufi_base.specs.declared.record.Row.{Row};
ghost use Rattle.gufi_stats.specs.Grouped.{rows_counted};
ghost use Rattle.gufi_stats.specs.GroupLaws.{grouped-counted, grouped-reordered};
ghost use Rattle.gufi_agg.specs.Grouped.{letter, as_file, group_from, grouped_rows, AreSumsOf};

use gufi_base::{Kind, Memory, Meta, RowRef, Yield};
use gufi_stats::{NumberSums, RowNumber};
use gufi_sums::Summary;
use std::alloc::Global;
use std::collections::BTreeMap;
use std::marker::{Model, PhantomData};

/// The rows that have one number: how many they are, the sum of their sizes, and the least and the greatest size and time.
///
/// Sizes are in bytes, and those of all rows count; times are in seconds since the epoch.
#[derive(Clone, Copy, Debug, PartialEq, Eq)]
pub struct Group {
    pub key: u64,
    pub count: u64,
    pub sum: u128,
    pub size: (u64, u64),
    pub mtime: (i64, i64),
}

/// The letter of a row's type.
#[derive(Clone, Copy, Debug, PartialEq, Eq)]
pub struct Letter;

impl RowNumber for Letter {
    ghost number = { letter };

    fn of(row: RowRef<'_>) -> u64 {
        u64::from(row.meta.kind.letter())
    }
}

/// The record as a file's, whose size counts.
fn as_file(meta: &Meta) -> Meta
    ensures { result ≡ as_file meta.now }
{
    Meta {
        kind: Kind::File,
        ..*meta
    }
}

fn group_from(number: u64, sum: &Summary) -> Group
    ensures { result ≡ group_from (number, sum.now) }
{
    Group {
        key: number,
        count: sum.files,
        sum: sum.bytes,
        size: sum.size.unwrap_or((0, 0)),
        mtime: sum.mtime.unwrap_or((0, 0)),
    }
}

/// The groups by the sums of records that were added as files'.
fn groups_of(alloc: Global, sums: &BTreeMap<u64, Summary>) -> Result<Vec<Group>, Memory>
    ensures { IfOk result (λ groups. groups.items ≡ map group_from sums.now.entries) }
{
    let mut groups = Vec::new(alloc);
    for (number, sum) in sums {
        groups.push(group_from(*number, sum))?;
    }
    Ok(groups)
}

/// The groups of rows by a number. Contracts see the numbers, ascending, with the sums that stand for the rows.
///
/// It keeps one sum for each number and no row. A row takes time in proportion to the logarithm of the numbers, and
/// constant time where it has the number of the row before it.
#[derive(Drop)]
pub struct Groups<K: RowNumber> {
    sums: NumberSums,
    of: PhantomData<K>,
}

impl<K: RowNumber> Model for Groups<K> {
    ghost use Rattle.std.specs.Prelude.{ℕ, List};
    ghost use Rattle.gufi_sums.specs.declared.summary.Summary.{Summary};

    ghost Value = { List (ℕ × Summary) };

    ghost view = { λ g. g.sums };
}

impl<K: RowNumber> Yield for Groups<K> {
    ghost count = { rows_counted };

    ghost stands_for = { AreSumsOf K.number };

    ghost counted = { grouped-counted as_file K.number };

    ghost reordered = { grouped-reordered as_file K.number };

    fn none(alloc: Global) -> Result<Groups<K>, Memory> {
        Ok(Groups {
            sums: NumberSums::new(alloc),
            of: PhantomData,
        })
    }

    fn take(&mut self, _alloc: Global, row: RowRef<'_>) -> Result<(), Memory> {
        let meta = as_file(row.meta);
        self.sums.add(K::of(row), &meta)
    }

    fn merge(&mut self, alloc: Global, other: Groups<K>) -> Result<(), Memory> {
        self.sums.join(alloc, other.sums)
    }

    fn settle(&mut self, _alloc: Global) -> Result<(), Memory> {
        Ok(())
    }
}

impl<K: RowNumber> Groups<K> {
    /// The groups, ascending by their numbers.
    pub fn sorted(self, alloc: Global) -> Result<Vec<Group>, Memory>
        requires few { (rows : List Row) × AreSumsOf K.number self rows × (length rows < 2 ^ 40) }
        ensures groups { IfOk result (λ groups. (rows : List Row) → AreSumsOf K.number self rows → groups.items ≡ grouped_rows K.number rows) }
    {
        let sums = self.sums.into_sums()?;
        groups_of(alloc, &sums)
    }
}
