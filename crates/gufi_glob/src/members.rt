//! What a bracket takes.
ghost use Rattle.std.specs.Prelude.{◌≡◌, ℕ, ◌<◌};
ghost use Rattle.std.specs.List.{list_any};
ghost use Rattle.gufi_glob.specs.ByteSets.{has_byte};
ghost use Rattle.gufi_glob.specs.Patterns.{is_within, is_among};

use crate::byte_set::ByteSet;

/// The bytes within some of the ranges, whose ends belong to them; or those within none, where it is the complement.
///
/// The set has the bytes of the ranges, so that a byte costs one look-up, however many ranges there are.
#[derive(Drop)]
pub(crate) struct Members {
    complement: bool,
    ranges: Vec<(u8, u8)>,
    set: ByteSet,
    ghost same: { (b : ℕ) → b < 256 → has_byte set.words b ≡ list_any (is_within b) ranges.items },
}

impl Members {
    pub(crate) fn of(complement: bool, ranges: Vec<(u8, u8)>) -> Members
        ensures complement { result.complement ≡ complement }
        ensures ranges { result.ranges ≡ ranges }
    {
        let set = ByteSet::of(ranges.as_slice());
        Members {
            complement,
            ranges,
            set,
        }
    }

    #[inline]
    pub(crate) fn has(&self, byte: u8) -> bool
        ensures { result ≡ is_among self.now.complement self.now.ranges.items byte }
    {
        self.set.has(byte) != self.complement
    }
}
