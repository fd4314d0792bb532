//! The line of a sum.

ghost use Rattle.std.specs.Prelude.{◌≡◌, ◌++◌, IfOk, OnOk, codes, decimal};
ghost use Rattle.std.specs.Fmt.{signed_decimal};
ghost use Rattle.gufi_list.specs.Pieces.{ranges_text};
ghost use Rattle.gufi_list.specs.Texts.{pair_text, total_text};

use crate::put::put_signed;
use gufi_base::{Memory, put, put_named};
use gufi_sums::{Summary, put_counts};
use std::alloc::Global;

/// A word, and a pair over no rows.
fn put_none(out: &mut Vec<u8>, word: &[u8]) -> Result<(), Memory>
    ensures { OnOk result (out.new.items ≡ out.old.items ++ (word.now ++ codes "- -")) }
{
    put(out, word)?;
    put(out, b"- -")
}

fn put_sizes(out: &mut Vec<u8>, word: &[u8], pair: Option<(u64, u64)>) -> Result<(), Memory>
    ensures { OnOk result (out.new.items ≡ out.old.items ++ (word.now ++ pair_text decimal pair)) }
{
    match pair {
        None => put_none(out, word),
        Some((least, greatest)) => {
            put_named(out, word, least)?;
            put_named(out, b" ", greatest)
        }
    }
}

fn put_times(out: &mut Vec<u8>, word: &[u8], pair: Option<(i64, i64)>) -> Result<(), Memory>
    ensures { OnOk result (out.new.items ≡ out.old.items ++ (word.now ++ pair_text signed_decimal pair)) }
{
    match pair {
        None => put_none(out, word),
        Some((least, greatest)) => {
            put_signed(out, word, least)?;
            put_signed(out, b" ", greatest)
        }
    }
}

fn put_ids(out: &mut Vec<u8>, word: &[u8], pair: Option<(u32, u32)>) -> Result<(), Memory>
    ensures { OnOk result (out.new.items ≡ out.old.items ++ (word.now ++ pair_text decimal pair)) }
{
    match pair {
        None => put_none(out, word),
        Some((least, greatest)) => {
            put_named(out, word, u64::from(least))?;
            put_named(out, b" ", u64::from(greatest))
        }
    }
}

fn put_ranges(out: &mut Vec<u8>, sum: &Summary) -> Result<(), Memory>
    ensures { OnOk result (out.new.items ≡ out.old.items ++ ranges_text sum.now) }
{
    put_sizes(out, b" size ", sum.size)?;
    put_times(out, b" mtime ", sum.mtime)?;
    put_ids(out, b" uid ", sum.uid)?;
    put_ids(out, b" gid ", sum.gid)
}

/// Appends the sum as it is printed.
pub(crate) fn put_total(out: &mut Vec<u8>, sum: &Summary) -> Result<(), Memory>
    ensures { OnOk result (out.new.items ≡ out.old.items ++ total_text sum.now) }
{
    put_counts(out, sum)?;
    put_ranges(out, sum)
}

/// The sum as it is printed, without a newline: `- -` for the least and the greatest of no rows.
pub fn total_text(alloc: Global, sum: &Summary) -> Result<Vec<u8>, Memory>
    ensures { IfOk result (λ text. text.items ≡ total_text sum.now) }
{
    let mut out = Vec::new(alloc);
    put_total(&mut out, sum)?;
    Ok(out)
}
