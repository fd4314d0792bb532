//! Tests of sums and of depths, by which whole lists of rows are passed over.
ghost use Rattle.std.specs.Prelude.{◌≡◌, ℕ, ◌<◌, ◌≤◌, Bool, true, false, List, Option, Some, None};
ghost use Rattle.gufi_base.specs.declared.record.Row.{Row};
ghost use Rattle.gufi_sums.specs.declared.summary.Summary.{Summary};
ghost use Rattle.gufi_sums.specs.Depths.{is_within, nothing_within, within_most};
ghost use Rattle.gufi_sums.specs.Total.{total, join, NoneMeets};
ghost use Rattle.std.proofs.lemmas.Bool.{false≢true};

use crate::summary::Summary;

/// A test of sums and of depths that tells where no row can meet a query.
pub trait Skip {
    /// Whether a row at a depth meets the query.
    ghost query: { Self → Row → ℕ → Bool };

    /// The test of a sum.
    ghost skips: { Self → Summary → Bool };

    /// Where the test is true of the sum of some rows, none of them meets the query at any depth.
    ghost sound: { (skip : Self) (sum : Summary) → skips skip sum ≡ true → (rows : List Row) → total rows ≡ sum →
        NoneMeets (query skip) rows };

    /// What the test says of the sum of two lists of rows, it says of the sum of each.
    ghost parts: { (skip : Self) (a b : Summary) → skips skip (join a b) ≡ true →
        (skips skip a ≡ true) × (skips skip b ≡ true) };

    /// The greatest depth of a row that meets the query, where it is known.
    ghost deepest: { Self → Option ℕ };

    /// No row that lies deeper meets the query.
    ghost bounded: { (skip : Self) (most : ℕ) → deepest skip ≡ Some most → (row : Row) (depth : ℕ) →
        query skip row depth ≡ true → depth ≤ most };

    /// Whether the sum alone tells that none of its rows meets the query. False tells nothing.
    fn none_match(&self, sum: &Summary) -> bool
        ensures { result ≡ skips self.now sum.now };

    /// Whether a sum that counts a directory may tell that none of its rows meets the query. Where it is false, such sums needn't be
    /// made or looked at. True tells nothing.
    fn asks_sums(&self) -> bool
        ensures { result ≡ false → (sum : Summary) → 0 < sum.dirs → skips self.now sum ≡ false };

    /// No row that lies deeper than this below the start meets the query. None tells nothing.
    fn deepest(&self) -> Option<u32>
        ensures { result ≡ deepest self.now };
}

/// Passes nothing over: every row meets its query.
#[derive(Clone, Copy, Debug, PartialEq, Eq)]
pub struct NoSkip;

impl Skip for NoSkip {
    ghost query = { λ _ _ _. true };

    ghost skips = { λ _ _. false };

    ghost sound = { λ skip sum e rows is. absurd (false≢true e) };

    ghost parts = { λ skip a b e. absurd (false≢true e) };

    ghost deepest = { λ _. None };

    ghost bounded = { λ skip most is row depth met. nothing_within most is depth };

    fn none_match(&self, _sum: &Summary) -> bool {
        false
    }

    fn asks_sums(&self) -> bool {
        false
    }

    fn deepest(&self) -> Option<u32> {
        None
    }
}

/// Passes over what lies deeper below the start than a depth, where there is one.
#[derive(Clone, Copy, Debug, PartialEq, Eq)]
pub struct NoDeeper {
    pub than: Option<u32>,
}

impl Skip for NoDeeper {
    ghost query = { λ skip row depth. is_within skip.than depth };

    ghost skips = { λ _ _. false };

    ghost sound = { λ skip sum e rows is. absurd (false≢true e) };

    ghost parts = { λ skip a b e. absurd (false≢true e) };

    ghost deepest = { λ skip. skip.than };

    ghost bounded = { λ skip most is row depth met. within_most skip.than most is depth met };

    fn none_match(&self, sum: &Summary) -> bool {
        NoSkip.none_match(sum)
    }

    fn asks_sums(&self) -> bool {
        NoSkip.asks_sums()
    }

    fn deepest(&self) -> Option<u32> {
        self.than
    }
}
