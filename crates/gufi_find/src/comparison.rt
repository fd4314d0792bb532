//! Numbers to compare with: `n`, `+n` and `-n`.
ghost use Rattle.std.specs.Prelude.{◌≡◌, ◌≤◌, pos};
ghost use Rattle.gufi_find.specs.Tests.{meets, unit_bytes, days_since};

/// Equal to a number, more than it, or less.
#[derive(Clone, Copy, Debug, PartialEq, Eq)]
pub enum Comparison {
    EqualTo(u64),
    MoreThan(u64),
    LessThan(u64),
}

impl Comparison {
    /// Whether a number meets it.
    pub(crate) fn is_met(self, number: u64) -> bool
        ensures { result ≡ meets self (pos number) }
    {
        match self {
            Comparison::EqualTo(wanted) => number == wanted,
            Comparison::MoreThan(wanted) => wanted < number,
            Comparison::LessThan(wanted) => number < wanted,
        }
    }

    /// Whether the whole days from a time to a moment meet it. A time behind the moment counts below zero.
    pub(crate) fn is_met_by_days(self, now: i64, time: i64) -> bool
        ensures { result ≡ meets self (days_since now time) }
    {
        let days = now.abs_diff(time) / 86400;
        if time <= now || days == 0 {
            return self.is_met(days);
        }
        match self {
            Comparison::EqualTo(_) | Comparison::MoreThan(_) => false,
            Comparison::LessThan(_) => true,
        }
    }
}

/// The unit of a size.
#[derive(Clone, Copy, Debug, PartialEq, Eq)]
pub enum SizeUnit {
    Bytes,
    /// 512 bytes.
    Blocks,
    Kibibytes,
    Mebibytes,
    Gibibytes,
}

impl SizeUnit {
    /// How many bytes it has.
    pub(crate) fn bytes(self) -> u64
        ensures value { result ≡ unit_bytes self }
        ensures some { 1 ≤ result }
    {
        match self {
            SizeUnit::Bytes => 1,
            SizeUnit::Blocks => 512,
            SizeUnit::Kibibytes => 1024,
            SizeUnit::Mebibytes => 1048576,
            SizeUnit::Gibibytes => 1073741824,
        }
    }
}
