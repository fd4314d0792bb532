//! Numbers by which rows are counted.

ghost use Rattle.std.specs.Prelude.{◌≡◌, ◌==◌, ℕ, length, filter};
ghost use Rattle.gufi_base.specs.declared.record.Row.{Row};
ghost use Rattle.gufi_base.specs.Rows.{Stands, StandsForSome};
ghost use Rattle.gufi_stats.specs.Grouped.{depth, uid, gid};

use gufi_base::RowRef;

/// A number that each row has.
pub trait RowNumber {
    /// The number of a row.
    ghost number: { Row → ℕ };

    /// The number of the row that has these parts.
    fn of(row: RowRef<'_>) -> u64
        requires { StandsForSome row }
        ensures { (of : Row) → Stands row.entry of → result ≡ number of };
}

/// How many names a row's path has.
#[derive(Clone, Copy, Debug, PartialEq, Eq)]
pub struct Depth;

/// The owner of a row.
#[derive(Clone, Copy, Debug, PartialEq, Eq)]
pub struct Uid;

/// The group of a row.
#[derive(Clone, Copy, Debug, PartialEq, Eq)]
pub struct Gid;

/// How many slashes there are. It takes no branch at a byte, since slashes come in no order that could be foreseen.
fn count_slashes(text: &[u8]) -> u64
    ensures { result ≡ length (filter (λ b. b == 47) text.now) }
{
    let mut count = 0;
    for k in 0..text.len() {
        count += u64::from(text[k] == b'/');
    }
    count
}

impl RowNumber for Depth {
    ghost number = { depth };

    fn of(row: RowRef<'_>) -> u64 {
        count_slashes(row.stem)
    }
}

impl RowNumber for Uid {
    ghost number = { uid };

    fn of(row: RowRef<'_>) -> u64 {
        u64::from(row.meta.uid)
    }
}

impl RowNumber for Gid {
    ghost number = { gid };

    fn of(row: RowRef<'_>) -> u64 {
        u64::from(row.meta.gid)
    }
}
