//! Laws of sums.
ghost use Rattle.std.specs.Prelude.{◌≡◌, ◌++◌, List};
ghost use Rattle.gufi_base.specs.declared.record.Row.{Row};
ghost use Rattle.gufi_sums.specs.declared.summary.Summary.{Summary};
ghost use Rattle.gufi_sums.specs.Total.{empty, join, total};

/// Sums join in any grouping and order, and the sum of two lists of rows is their two sums joined.
pub fn sums_join()
    ensures grouping { (a b c : Summary) → join (join a b) c ≡ join a (join b c) }
    ensures order { (a b : Summary) → join a b ≡ join b a }
    ensures none { (a : Summary) → join empty a ≡ a }
    ensures lists { (rows others : List Row) → total (rows ++ others) ≡ join (total rows) (total others) }
{}
