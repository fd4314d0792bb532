//! What stays of directories where some of them are replaced: bundles are shared, and of those that lose most rows the others are copied.
//! No clause rests on the counts: a directory whose bundle isn't shared is copied, whatever they are.

ghost use Rattle.std.specs.Prelude.{◌≡◌, ◌≤◌, ◌++◌, length, map, slice_index_or, None, All, IfOk, OnOk};
ghost use Rattle.std.specs.Arc.{arc_value};
ghost use Rattle.gufi_tree.specs.Bundled.{lists_of, directories_at, directory_at, AreTaken, Keep, Share, Stands};

use crate::borrowed::DirRef;
use crate::bundle::Bundle;
use crate::dirs::{Place, bundle_at, found_at, pack};
use crate::graft::push_entries;
use crate::pending::Pending;
use gufi_base::{capped_u32, u32_of};
use std::alloc::{AllocError, Global};
use std::sync::Arc;

/// Bundles that are shared once more, and for each bundle of those that they are of the number that it has among them, if it is one.
#[derive(Drop)]
pub(crate) struct Taken {
    pub(crate) bundles: Vec<Arc<Bundle, Global>>,
    pub(crate) numbers: Vec<Option<u32>>,
}

/// Begins to count the rows of the bundles that some places name.
fn begin_counts(counts: &mut Vec<Option<u32>>, places: &[Place]) {
    for place in places {
        let number = place.bundle as usize;
        if number < counts.len() {
            counts[number] = Some(0);
        }
    }
}

/// Adds the rows of the directory at a place to those of its bundle, where these are counted: its own and its entries.
#[inline]
fn count_rows(
    counts: &mut Vec<Option<u32>>,
    bundles: &[Arc<Bundle, Global>],
    last: &Bundle,
    place: Place,
) {
    let number = place.bundle as usize;
    if number >= counts.len() {
        return;
    }
    let Some(rows) = counts[number] else {
        return;
    };
    if let Some(dir) = found_at(bundles, last, place) {
        let entries = capped_u32(dir.entries().len());
        counts[number] = Some(rows.saturating_add(entries).saturating_add(1));
    }
}

/// The same for the directories at places.
fn count_all(
    counts: &mut Vec<Option<u32>>,
    bundles: &[Arc<Bundle, Global>],
    last: &Bundle,
    places: &[Place],
) {
    for place in places {
        count_rows(counts, bundles, last, *place);
    }
}

/// How many rows stay named of each bundle of which some directories go; nothing of the others, where all stay that were named.
pub(crate) fn rows_left(
    alloc: Global,
    bundles: &[Arc<Bundle, Global>],
    last: &Bundle,
    places: &[Place],
    at: usize,
    end: usize,
) -> Result<Vec<Option<u32>>, AllocError>
    requires order { at ≤ end }
    requires within { end ≤ length places.now }
{
    let mut counts = vec![in alloc; None; bundles.len()]?;
    begin_counts(&mut counts, &places[at..end]);
    count_all(&mut counts, bundles, last, &places[..at]);
    count_all(&mut counts, bundles, last, &places[end..]);
    Ok(counts)
}

/// Whether a bundle is shared: all directories stay that were named, or with half of its rows at least.
fn is_shared(bundle: &Bundle, left: Option<u32>) -> bool {
    match left {
        None => true,
        Some(rows) => bundle.rows() <= (rows as usize).saturating_mul(2),
    }
}

/// Bundles, shared once more, by the rows that are left of them.
pub(crate) fn take_over(
    alloc: Global,
    bundles: &[Arc<Bundle, Global>],
    left: &[Option<u32>],
) -> Result<Taken, AllocError>
    ensures { IfOk result (λ taken. AreTaken taken.numbers.items (map arc_value bundles.now) (map arc_value taken.bundles.items)) }
{
    let mut numbers = Vec::with_capacity(alloc, bundles.len())?;
    let mut taken = Vec::with_capacity(alloc, bundles.len())?;
    for number in 0..bundles.len() {
        if is_shared(&bundles[number], number_of(left, number)) {
            numbers.push(Some(u32_of(taken.len())?))?;
            taken.push(Arc::try_clone(&bundles[number])?)?;
        } else {
            numbers.push(None)?;
        }
    }
    Ok(Taken {
        bundles: taken,
        numbers,
    })
}

/// The number at a place of a list, where there is one.
#[inline]
fn number_of(numbers: &[Option<u32>], at: usize) -> Option<u32>
    ensures { result ≡ slice_index_or numbers.now at None }
{
    if at < numbers.len() {
        numbers[at]
    } else {
        None
    }
}

/// Packs a copy of a directory behind the others.
fn copy_dir(
    alloc: Global,
    bundles: &mut Vec<Arc<Bundle, Global>>,
    last: &mut Bundle,
    dir: &DirRef<'_>,
) -> Result<Place, AllocError>
    ensures keep { Keep (lists_of bundles.old.items last.old) (lists_of bundles.new.items last.new) }
    ensures stands { IfOk result (Stands (lists_of bundles.new.items last.new)) }
    ensures directory { IfOk result (λ place. directory_at (lists_of bundles.new.items last.new) place ≡ dir.now) }
{
    let entries = dir.entries();
    let mut pending = Pending::with_room(alloc, entries.len())?;
    push_entries(&mut pending, &entries)?;
    pack(alloc, bundles, last, &dir.path(), &dir.rec(), &pending)
}

/// Where the directory at a place of other bundles stands: there where its bundle was taken over, and else in a copy.
#[inline]
fn place_again(
    alloc: Global,
    from: &[Arc<Bundle, Global>],
    from_last: &Bundle,
    numbers: &[Option<u32>],
    place: Place,
    bundles: &mut Vec<Arc<Bundle, Global>>,
    last: &mut Bundle,
) -> Result<Place, AllocError>
    requires stands { Stands (lists_of from.now from_last.now) place }
    requires share { Share numbers.now (lists_of from.now from_last.now) (lists_of bundles.old.items last.old) }
    ensures keep { Keep (lists_of bundles.old.items last.old) (lists_of bundles.new.items last.new) }
    ensures stands { IfOk result (Stands (lists_of bundles.new.items last.new)) }
    ensures same { IfOk result (λ again. directory_at (lists_of bundles.new.items last.new) again ≡ directory_at (lists_of from.now from_last.now) place) }
{
    let head = place.head;
    match number_of(numbers, place.bundle as usize) {
        Some(bundle) => Ok(Place { bundle, head }),
        None => {
            let dir = bundle_at(from, from_last, place.bundle).at(head as usize);
            copy_dir(alloc, bundles, last, &dir)
        }
    }
}

/// Adds the places of the directories at places of other bundles, each where it stands now.
pub(crate) fn push_again(
    alloc: Global,
    from: &[Arc<Bundle, Global>],
    from_last: &Bundle,
    numbers: &[Option<u32>],
    some: &[Place],
    bundles: &mut Vec<Arc<Bundle, Global>>,
    last: &mut Bundle,
    places: &mut Vec<Place>,
) -> Result<(), AllocError>
    requires some { All (Stands (lists_of from.now from_last.now)) some.now }
    requires stand { All (Stands (lists_of bundles.old.items last.old)) places.old.items }
    requires share { Share numbers.now (lists_of from.now from_last.now) (lists_of bundles.old.items last.old) }
    ensures keep { Keep (lists_of bundles.old.items last.old) (lists_of bundles.new.items last.new) }
    ensures stand { OnOk result (All (Stands (lists_of bundles.new.items last.new)) places.new.items) }
    ensures pushed { OnOk result (directories_at (lists_of bundles.new.items last.new) places.new.items ≡ directories_at (lists_of bundles.old.items last.old) places.old.items ++ directories_at (lists_of from.now from_last.now) some.now) }
{
    for place in some {
        let again = place_again(alloc, from, from_last, numbers, *place, bundles, last)?;
        places.push(again)?;
    }
    Ok(())
}
