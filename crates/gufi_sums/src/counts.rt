//! The printed counts of a sum.
ghost use Rattle.std.specs.Prelude.{◌≡◌, ◌++◌, OnOk};
ghost use Rattle.gufi_sums.specs.Counts.{counts_text};

use crate::summary::Summary;
use gufi_base::{Memory, put_named, put_u128};

/// Appends the counts as they are printed: `dirs 2 files 1 links 0 others 0 bytes 7`, without a newline.
pub fn put_counts(out: &mut Vec<u8>, sum: &Summary) -> Result<(), Memory>
    ensures { OnOk result (out.new.items ≡ out.old.items ++ counts_text sum.now) }
{
    put_named(out, b"dirs ", sum.dirs)?;
    put_named(out, b" files ", sum.files)?;
    put_named(out, b" links ", sum.links)?;
    put_named(out, b" others ", sum.others)?;
    out.extend_from_slice(b" bytes ")?;
    put_u128(out, sum.bytes)
}
