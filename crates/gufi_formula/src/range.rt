//! Ranges of numbers as hints, cut to what a record can hold: where no record can have one of them, from 1 to 0.
ghost use Rattle.std.specs.Prelude.{◌≡◌, ◌≤◌, ◌<◌};
ghost use Rattle.gufi_formula.specs.Ranges.{nearest_natural, nearest_time, has_naturals, sizes_in, uids_in, gids_in, times_in};

use gufi_base::Hint;

const MAX_ID: u64 = 4294967295;

/// The nearest number that isn't below 0 and isn't above the greatest.
fn nearest_natural(number: i128, most: u64) -> u64
    ensures nearest { result ≡ nearest_natural most number }
    ensures bounded { result ≤ most }
{
    if number < 0 {
        0
    } else if i128::from(most) < number {
        most
    } else {
        number as u64
    }
}

fn nearest_id(number: i128) -> u32
    ensures { result ≡ nearest_natural 4294967295 number }
{
    nearest_natural(number, MAX_ID) as u32
}

fn nearest_time(number: i128) -> i64
    ensures { result ≡ nearest_time number }
{
    if number < i128::from(i64::MIN) {
        i64::MIN
    } else if i128::from(i64::MAX) < number {
        i64::MAX
    } else {
        number as i64
    }
}

/// Whether some number from 0 to the greatest is in the range.
fn has_naturals(first: i128, last: i128, most: u64) -> bool
    ensures { result ≡ has_naturals most first last }
{
    first <= i128::from(most) && 0 <= last
}

/// Sizes from the first to the last, in bytes.
pub fn sizes_in(first: i128, last: i128) -> Hint
    ensures { result ≡ sizes_in first last }
{
    if !has_naturals(first, last, u64::MAX) {
        return Hint::SizeIn(1, 0);
    }
    Hint::SizeIn(
        nearest_natural(first, u64::MAX),
        nearest_natural(last, u64::MAX),
    )
}

/// Users from the first to the last.
pub fn uids_in(first: i128, last: i128) -> Hint
    ensures { result ≡ uids_in first last }
{
    if !has_naturals(first, last, MAX_ID) {
        return Hint::UidIn(1, 0);
    }
    Hint::UidIn(nearest_id(first), nearest_id(last))
}

/// Groups from the first to the last.
pub fn gids_in(first: i128, last: i128) -> Hint
    ensures { result ≡ gids_in first last }
{
    if !has_naturals(first, last, MAX_ID) {
        return Hint::GidIn(1, 0);
    }
    Hint::GidIn(nearest_id(first), nearest_id(last))
}

/// Times of the last change from the first to the last, in seconds since the epoch.
pub fn times_in(first: i128, last: i128) -> Hint
    ensures { result ≡ times_in first last }
{
    if i128::from(i64::MAX) < first || last < i128::from(i64::MIN) {
        return Hint::MtimeIn(1, 0);
    }
    Hint::MtimeIn(nearest_time(first), nearest_time(last))
}
