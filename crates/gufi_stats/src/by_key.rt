//! Lines of a list of rows by a number that each row has.

ghost use Rattle.std.specs.Prelude.{◌≡◌, ◌^◌, ◌<◌, length, IfOk};
ghost use Rattle.gufi_stats.specs.Grouped.{number_of, grouped};
ghost use Rattle.gufi_stats.specs.Labels.{label_text};
ghost use Rattle.gufi_stats.specs.Reports.{by_key};

use crate::label::Label;
use crate::sums::NumberSums;
use gufi_base::{Memory, Row};
use std::alloc::Global;

/// The number by which rows are counted.
#[derive(Clone, Copy)]
pub(crate) enum Key {
    /// The depth below a start of so many names.
    Level { above: usize },
    Uid,
    Gid,
}

impl Key {
    fn number(self, row: &Row) -> u64
        ensures { result ≡ number_of self row.now }
    {
        match self {
            Key::Level { above } => row.path.depth().saturating_sub(above) as u64,
            Key::Uid => u64::from(row.rec.meta.uid),
            Key::Gid => u64::from(row.rec.meta.gid),
        }
    }
}

fn groups_of(alloc: Global, rows: &[Row], key: Key) -> Result<NumberSums, Memory>
    requires { length rows.now < 2 ^ 40 }
    ensures { IfOk result (λ groups. groups ≡ grouped (number_of key) rows.now) }
{
    let mut groups = NumberSums::new(alloc);
    for row in rows {
        groups.add(key.number(row), &row.rec.meta)?;
    }
    Ok(groups)
}

/// A line for each number that a row has, ascending: its label, and the counts of those rows.
pub(crate) fn lines_by(
    alloc: Global,
    label: Label<'_>,
    rows: &[Row],
    key: Key,
) -> Result<Vec<u8>, Memory>
    requires { length rows.now < 2 ^ 40 }
    ensures { IfOk result (λ text. text.items ≡ by_key (label_text label.entry) (number_of key) rows.now) }
{
    let groups = groups_of(alloc, rows, key)?;
    groups.lines(alloc, label, 0)
}
