//! Counts of rows by a number, made as the rows come.

ghost use Rattle.std.specs.Prelude.{◌≡◌, ◌-◌, ◌^◌, ◌<◌, List, length, IfOk};
ghost use Rattle.gufi_base.specs.declared.record.Row.{Row};
ghost use Rattle.gufi_stats.specs.Grouped.{grouped, rows_counted};
ghost use Rattle.gufi_stats.specs.GroupLaws.{grouped-counted, grouped-reordered};
ghost use Rattle.gufi_stats.specs.Labels.{label_text};
ghost use Rattle.gufi_stats.specs.Reports.{by_key};

use crate::label::Label;
use crate::number::RowNumber;
use crate::sums::NumberSums;
use gufi_base::{Memory, RowRef, Yield};
use std::alloc::Global;
use std::marker::{Model, PhantomData};

/// The sums of the rows that have one number, for each number that a row has. Contracts see the numbers, ascending,
/// with their sums.
///
/// It keeps one sum for each number and no row. A row takes time in proportion to the logarithm of the numbers, and
/// constant time where it has the number of the row before it.
#[derive(Drop)]
pub struct Counts<K: RowNumber> {
    groups: NumberSums,
    of: PhantomData<K>,
}

impl<K: RowNumber> Model for Counts<K> {
    ghost use Rattle.std.specs.Prelude.{ℕ, List};
    ghost use Rattle.gufi_sums.specs.declared.summary.Summary.{Summary};

    ghost Value = { List (ℕ × Summary) };

    ghost view = { λ c. c.groups };
}

impl<K: RowNumber> Yield for Counts<K> {
    ghost count = { rows_counted };

    ghost stands_for = { λ groups rows. groups ≡ grouped K.number rows };

    ghost counted = { grouped-counted (λ meta. meta) K.number };

    ghost reordered = { grouped-reordered (λ meta. meta) K.number };

    fn none(alloc: Global) -> Result<Counts<K>, Memory> {
        Ok(Counts {
            groups: NumberSums::new(alloc),
            of: PhantomData,
        })
    }

    fn take(&mut self, _alloc: Global, row: RowRef<'_>) -> Result<(), Memory> {
        self.groups.add(K::of(row), row.meta)
    }

    fn merge(&mut self, alloc: Global, other: Counts<K>) -> Result<(), Memory> {
        self.groups.join(alloc, other.groups)
    }

    fn settle(&mut self, _alloc: Global) -> Result<(), Memory> {
        Ok(())
    }
}

impl<K: RowNumber> Counts<K> {
    /// A line for each number less so many, ascending: its label, and the counts of those rows.
    pub(crate) fn lines(
        self,
        alloc: Global,
        label: Label<'_>,
        less: usize,
    ) -> Result<Vec<u8>, Memory>
        requires { (rows : List Row) × (self ≡ grouped K.number rows) × (length rows < 2 ^ 40) }
        ensures { IfOk result (λ text. (rows : List Row) → self ≡ grouped K.number rows → text.items ≡ by_key (label_text label.entry) (λ row. K.number row - less) rows) }
    {
        self.groups.lines(alloc, label, less as u64)
    }
}
