//! Packed entries in name order.

ghost use Rattle.std.specs.Prelude.{◌≡◌, map, IsTrue};
ghost use Rattle.std.specs.List.Sorted.{IsPermutation};
ghost use Rattle.gufi_base.specs.Basics.{ascends};
ghost use Rattle.gufi_tree.specs.Bundles.{name_in};
ghost use Rattle.gufi_tree.specs.Packs.{entries_of, placed_in};
ghost use Rattle.gufi_tree.specs.Tree.{entry_cmp};

use crate::likely::move_to;
use crate::pending::PlacedRow;
use gufi_base::common_front;
use std::alloc::{AllocError, Global};
use std::cmp::Ordering;

/// So many entries are sorted where they stand.
const FEW: usize = 10;

/// The name of an entry, as far as it lies in the text.
#[inline]
fn name_of<'a>(text: &'a [u8], row: &PlacedRow) -> &'a [u8]
    ensures { result.now ≡ name_in text.now row.now.packed }
{
    let from = (row.packed.at as usize).min(text.len());
    let rest = &text[from..];
    let count = (row.packed.name as usize).min(rest.len());
    &rest[..count]
}

/// Whether each name is before the next one.
pub(crate) fn rise(text: &[u8], rows: &[PlacedRow]) -> bool
    ensures { IsTrue result → IsTrue (ascends entry_cmp (entries_of (map (placed_in text.now) rows.now))) }
{
    rows.is_sorted_by(|a, b| name_of(text, a).cmp(name_of(text, b)).is_lt())
}

/// The name of an entry behind what all names share, its first bytes as a number, and where the entry stands.
#[derive(Clone, Copy)]
struct Named<'a> {
    front: u64,
    name: &'a [u8],
    place: u32,
}

/// How many bytes all names begin with alike.
fn shared_front(text: &[u8], rows: &[PlacedRow]) -> usize {
    let Some(row) = rows.first() else {
        return 0;
    };
    let first = name_of(text, row);
    let mut shared = first.len();
    for row in rows {
        if shared == 0 {
            break;
        }
        shared = shared.min(common_front(first, name_of(text, row)));
    }
    shared
}

/// Fewer than eight bytes as a number, the first one foremost, with zeros behind them.
fn short_front(name: &[u8]) -> u64 {
    let mut front = [0u8; 8];
    for (to, byte) in front.iter_mut().zip(name) {
        *to = *byte;
    }
    u64::from_be_bytes(front)
}

/// The first eight bytes of a name as a number: where these differ for two names, so do the names, in the same order.
#[inline]
fn front_of(name: &[u8]) -> u64 {
    match name.first_chunk::<8>() {
        Some(front) => u64::from_be_bytes(*front),
        None => short_front(name),
    }
}

/// The order of two names, by their fronts where these differ.
#[inline]
fn names_cmp(a: &[u8], a_front: u64, b: &[u8], b_front: u64) -> Ordering {
    if a_front != b_front {
        return a_front.cmp(&b_front);
    }
    a.cmp(b)
}

#[inline]
fn named_cmp(a: &Named<'_>, b: &Named<'_>) -> Ordering {
    names_cmp(a.name, a.front, b.name, b.front)
}

/// The order of two entries by their names.
#[inline]
fn likely_cmp(text: &[u8], a: &PlacedRow, b: &PlacedRow) -> Ordering {
    let (left, right) = (name_of(text, a), name_of(text, b));
    names_cmp(left, front_of(left), right, front_of(right))
}

/// The names of entries in order.
fn names_of<'a>(
    alloc: Global,
    text: &'a [u8],
    rows: &[PlacedRow],
) -> Result<Vec<Named<'a>>, AllocError> {
    let shared = shared_front(text, rows);
    let mut names = Vec::with_capacity(alloc, rows.len())?;
    for (place, row) in rows.iter().enumerate() {
        let name = name_of(text, row);
        let name = &name[shared.min(name.len())..];
        let front = front_of(name);
        let place = u32::try_from(place).unwrap_or(0);
        names.push(Named { front, name, place })?;
    }
    names.sort_unstable_by(|a, b| named_cmp(a, b));
    Ok(names)
}

/// To which place each entry is to go.
fn places_of(alloc: Global, text: &[u8], rows: &[PlacedRow]) -> Result<Vec<u32>, AllocError> {
    let names = names_of(alloc, text, rows)?;
    let mut places = vec![in alloc; 0u32; names.len()]?;
    for (to, named) in names.iter().enumerate() {
        let from = named.place as usize;
        if from < places.len() {
            places[from] = u32::try_from(to).unwrap_or(0);
        }
    }
    Ok(places)
}

/// Moves entries to where they are likely to go. Of many the names are sorted, and each entry is moved once.
fn move_likely(alloc: Global, text: &[u8], rows: &mut Vec<PlacedRow>)
    ensures { IsPermutation rows.old.items rows.new.items }
{
    if rows.len() <= FEW {
        rows.sort_unstable_by(|a, b| likely_cmp(text, a, b));
        return;
    }
    match places_of(alloc, text, rows.as_slice()) {
        Ok(places) => move_to(rows, places),
        Err(_) => {}
    }
}

/// Puts entries in rising name order, and tells whether no two have one name.
pub(crate) fn order_names(alloc: Global, text: &[u8], rows: &mut Vec<PlacedRow>) -> bool
    ensures order { IsPermutation rows.old.items rows.new.items }
    ensures distinct { IsTrue result → IsTrue (ascends entry_cmp (entries_of (map (placed_in text.now) rows.new.items))) }
{
    move_likely(alloc, text, rows);
    if rise(text, rows.as_slice()) {
        return true;
    }
    rows.sort_unstable_by(|a, b| name_of(text, a).cmp(name_of(text, b)));
    rise(text, rows.as_slice())
}
