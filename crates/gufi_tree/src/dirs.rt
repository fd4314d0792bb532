//! Directories as they are kept: by their places in bundles, which lists of directories share.

ghost use Rattle.std.specs.Prelude.{◌≡◌, ◌<◌, ◌≤◌, take, drop, ◌++◌, ◌∷◌, [], length, map, slice_index_or, All, IfOk, OnOk, OnErr};
ghost use Rattle.std.specs.Arc.{arc_value};
ghost use Rattle.std.specs.List.Sorted.{IsPermutation};
ghost use Rattle.gufi_tree.specs.Tree.{Directory};
ghost use Rattle.gufi_tree.specs.Stored.{directory_of};
ghost use Rattle.gufi_tree.specs.Bundled.{lists_of, directories_at, directory_at, AreTaken, Keep, Stands};
ghost use Rattle.gufi_tree.specs.Bundles.{IsShort};
ghost use Rattle.gufi_tree.specs.Packs.{entries_of};

use crate::borrowed::DirRef;
use crate::bundle::Bundle;
use crate::likely::move_to;
use crate::outside::{Taken, push_again, rows_left, take_over};
use crate::pending::Pending;
use crate::tree::{Entry, Stored};
use gufi_base::{PathRef, RecRef, text_cmp, u32_of};
use std::alloc::{AllocError, Global};
use std::cmp::Ordering;
use std::marker::Model;
use std::sync::Arc;

/// How many directories and entries a bundle has before the next one begins: few, so that little is copied where it is changed.
const ENOUGH: usize = 512;

/// Most bundles have fewer entries: those that have more end with a large directory.
const USUAL: usize = 2 * ENOUGH;

/// The number of a bundle, and which of its directories.
#[derive(Clone, Copy)]
pub(crate) struct Place {
    pub(crate) bundle: u32,
    pub(crate) head: u32,
}

/// Directories, each with its entries. Contracts see their list.
#[derive(Drop)]
pub struct Dirs {
    bundles: Vec<Arc<Bundle, Global>>,
    last: Bundle,
    places: Vec<Place>,
}

impl Model for Dirs {
    ghost use Rattle.gufi_tree.specs.Tree.{Directory};
    ghost use Rattle.std.specs.Prelude.{List, All};

    ghost Value = { List Directory };

    ghost use Rattle.gufi_tree.specs.Bundled.{lists_of, directories_at, Stands};

    ghost view = { λ d. directories_at (lists_of d.bundles.items d.last) d.places.items };

    ghost invariant = { λ d. All (Stands (lists_of d.bundles.items d.last)) d.places.items };
}

/// The bundle of a number; the last one's is that behind the others.
#[inline]
pub(crate) fn bundle_at<'a>(
    bundles: &'a [Arc<Bundle, Global>],
    last: &'a Bundle,
    number: u32,
) -> &'a Bundle
    requires { number < length (lists_of bundles.now last.now) }
    ensures { result.now ≡ slice_index_or (lists_of bundles.now last.now) number [] }
{
    let number = number as usize;
    if number < bundles.len() {
        &bundles[number]
    } else {
        last
    }
}

/// The same bundles, shared once more.
fn share_bundles(
    alloc: Global,
    bundles: &[Arc<Bundle, Global>],
) -> Result<Vec<Arc<Bundle, Global>>, AllocError>
    ensures { IfOk result (λ again. map arc_value again.items ≡ map arc_value bundles.now) }
{
    let mut again = Vec::with_capacity(alloc, bundles.len())?;
    for bundle in bundles {
        again.push(Arc::try_clone(bundle)?)?;
    }
    Ok(again)
}

/// Puts the last bundle's directories behind the other bundles, in as much memory as they take, and begins the last one anew.
fn close_last(
    alloc: Global,
    bundles: &mut Vec<Arc<Bundle, Global>>,
    last: &mut Bundle,
) -> Result<(), AllocError>
    ensures { Keep (lists_of bundles.old.items last.old) (lists_of bundles.new.items last.new) }
{
    let room = last.rows().min(USUAL);
    bundles.reserve(1)?;
    let full = last.take(alloc)?;
    match Arc::new(alloc, full) {
        Ok(bundle) => {
            bundles.push_reserved(bundle);
            // Asked for behind all else, so that what isn't used of it is cut off at the heap's end.
            last.make_room(room)
        }
        Err(failed) => {
            *last = failed.value;
            Err(AllocError)
        }
    }
}

/// Begins the last bundle anew where it has enough.
fn make_room(
    alloc: Global,
    bundles: &mut Vec<Arc<Bundle, Global>>,
    last: &mut Bundle,
) -> Result<(), AllocError>
    ensures { Keep (lists_of bundles.old.items last.old) (lists_of bundles.new.items last.new) }
{
    if last.rows() < ENOUGH {
        return Ok(());
    }
    close_last(alloc, bundles, last)
}

/// Packs a directory behind those of the last bundle.
fn push_last(
    bundles: &[Arc<Bundle, Global>],
    last: &mut Bundle,
    path: &PathRef<'_>,
    rec: &RecRef<'_>,
    entries: &Pending,
) -> Result<Place, AllocError>
    ensures keep { Keep (lists_of bundles.now last.old) (lists_of bundles.now last.new) }
    ensures stands { IfOk result (Stands (lists_of bundles.now last.new)) }
    ensures directory { IfOk result (λ place. directory_at (lists_of bundles.now last.new) place ≡ record { path = path.now; rec = rec.now; entries = entries_of entries.now }) }
{
    let bundle = u32_of(bundles.len())?;
    let head = u32_of(last.len())?;
    last.push(path, rec, entries)?;
    Ok(Place { bundle, head })
}

/// Packs a directory behind the others, and begins the last bundle anew where it has enough then: so a tree that shares them copies few rows.
pub(crate) fn pack(
    alloc: Global,
    bundles: &mut Vec<Arc<Bundle, Global>>,
    last: &mut Bundle,
    path: &PathRef<'_>,
    rec: &RecRef<'_>,
    entries: &Pending,
) -> Result<Place, AllocError>
    ensures keep { Keep (lists_of bundles.old.items last.old) (lists_of bundles.new.items last.new) }
    ensures stands { IfOk result (Stands (lists_of bundles.new.items last.new)) }
    ensures directory { IfOk result (λ place. directory_at (lists_of bundles.new.items last.new) place ≡ record { path = path.now; rec = rec.now; entries = entries_of entries.now }) }
{
    let place = push_last(bundles.as_slice(), last, path, rec, entries)?;
    make_room(alloc, bundles, last)?;
    Ok(place)
}

/// Packs entries behind others.
fn push_entries(pending: &mut Pending, entries: &[Entry]) -> Result<(), AllocError>
    ensures { OnOk result (entries_of pending.new ≡ entries_of pending.old ++ entries.now) }
{
    for entry in entries {
        pending.push(0, entry.name.as_slice(), &entry.rec.as_rec_ref())?;
    }
    Ok(())
}

/// Places, of which those from a number on are put before those from another on.
fn places_put(
    alloc: Global,
    places: &[Place],
    at: usize,
    from: usize,
) -> Result<Vec<Place>, AllocError>
    requires order { at ≤ from }
    requires within { from ≤ length places.now }
    ensures { IfOk result (λ put. put.items ≡ take at places.now ++ (drop from places.now ++ drop at (take from places.now))) }
{
    let mut put = Vec::with_capacity(alloc, places.len())?;
    put.extend_from_slice(&places[..at])?;
    put.extend_from_slice(&places[from..])?;
    put.extend_from_slice(&places[at..from])?;
    Ok(put)
}

/// The directories at some places of bundles and then at others, with room for so many more. They stand in bundles that were taken over, or
/// are copied.
fn gather(
    alloc: Global,
    from: &[Arc<Bundle, Global>],
    from_last: &Bundle,
    front: &[Place],
    back: &[Place],
    taken: Taken,
    more: usize,
) -> Result<Dirs, AllocError>
    requires front { All (Stands (lists_of from.now from_last.now)) front.now }
    requires back { All (Stands (lists_of from.now from_last.now)) back.now }
    requires taken { AreTaken taken.numbers.items (map arc_value from.now) (map arc_value taken.bundles.items) }
    ensures { IfOk result (λ dirs. dirs ≡ directories_at (lists_of from.now from_last.now) front.now ++ directories_at (lists_of from.now from_last.now) back.now) }
{
    let Taken {
        mut bundles,
        numbers,
    } = taken;
    let mut last = Bundle::new(alloc);
    let room = front.len().saturating_add(back.len()).saturating_add(more);
    let mut places = Vec::with_capacity(alloc, room)?;
    push_again(
        alloc,
        from,
        from_last,
        numbers.as_slice(),
        front,
        &mut bundles,
        &mut last,
        &mut places,
    )?;
    push_again(
        alloc,
        from,
        from_last,
        numbers.as_slice(),
        back,
        &mut bundles,
        &mut last,
        &mut places,
    )?;
    Ok(Dirs {
        bundles,
        last,
        places,
    })
}

/// How many bytes the longest path has in bundles, as it is kept, and so many at least.
fn longest_of(bundles: &[Arc<Bundle, Global>], least: u16) -> u16
    ensures least { least ≤ result }
    ensures short { All (All (IsShort result)) (map arc_value bundles.now) }
{
    let mut longest = least;
    for bundle in bundles {
        longest = longest.max(bundle.longest());
    }
    longest
}

/// The directory at a place, where there is one.
pub(crate) fn found_at<'a>(
    bundles: &'a [Arc<Bundle, Global>],
    last: &'a Bundle,
    place: Place,
) -> Option<DirRef<'a>> {
    let number = place.bundle as usize;
    if number > bundles.len() {
        return None;
    }
    let bundle = bundle_at(bundles, last, place.bundle);
    let head = place.head as usize;
    if head < bundle.len() {
        Some(bundle.at(head))
    } else {
        None
    }
}

/// The order of the paths of the directories at two places.
fn place_cmp(bundles: &[Arc<Bundle, Global>], last: &Bundle, a: Place, b: Place) -> Ordering {
    match (found_at(bundles, last, a), found_at(bundles, last, b)) {
        (Some(left), Some(right)) => text_cmp(left.path().text(), right.path().text()),
        _ => Ordering::Equal,
    }
}

impl Dirs {
    /// No directory.
    pub fn new(alloc: Global) -> Dirs
        ensures { result ≡ [] }
    {
        Dirs {
            bundles: Vec::new(alloc),
            last: Bundle::new(alloc),
            places: Vec::new(alloc),
        }
    }

    /// How many there are.
    pub fn len(&self) -> usize
        ensures { result ≡ length self.now }
    {
        self.places.len()
    }

    /// The directory at a place. `O(1)`.
    #[inline]
    pub fn at(&self, place: usize) -> DirRef<'_>
        requires { place < length self.now }
        ensures { (d : Directory) → result ≡ slice_index_or self.now place d }
    {
        let Place { bundle, head } = self.places[place];
        bundle_at(self.bundles.as_slice(), &self.last, bundle).at(head as usize)
    }

    /// As many bytes as the longest path has, as it is kept, or more. Linear in the bundles.
    pub(crate) fn longest(&self) -> u16
        ensures { All (IsShort result) self.now }
    {
        longest_of(self.bundles.as_slice(), self.last.longest())
    }

    /// Adds a directory with these entries behind the others. What doesn't fit in a bundle is answered as want of memory: a path or a
    /// link of more than 65,535 bytes, or 4 GiB of names.
    pub(crate) fn close(
        &mut self,
        alloc: Global,
        path: &PathRef<'_>,
        rec: &RecRef<'_>,
        entries: &Pending,
    ) -> Result<(), AllocError>
        ensures closed { OnOk result (self.new ≡ self.old ++ record { path = path.now; rec = rec.now; entries = entries_of entries.now } ∷ []) }
        ensures unchanged { OnErr result (self.new ≡ self.old) }
    {
        let place = pack(alloc, &mut self.bundles, &mut self.last, path, rec, entries)?;
        self.places.push(place)?;
        Ok(())
    }

    /// Adds a directory behind the others. What doesn't fit in a bundle is answered as want of memory: a path or a link of more than
    /// 65,535 bytes, or 4 GiB of names.
    pub fn push(&mut self, alloc: Global, dir: Stored) -> Result<(), AllocError>
        ensures pushed { OnOk result (self.new ≡ self.old ++ directory_of dir ∷ []) }
        ensures unchanged { OnErr result (self.new ≡ self.old) }
    {
        let mut entries = Pending::with_room(alloc, dir.entries.len())?;
        push_entries(&mut entries, dir.entries.as_slice())?;
        self.close(
            alloc,
            &dir.path.as_path_ref(),
            &dir.rec.as_rec_ref(),
            &entries,
        )
    }

    /// The same directories. Bundles are shared, but for the last one, which is copied.
    pub(crate) fn again(&self, alloc: Global) -> Result<Dirs, AllocError>
        ensures { IfOk result (λ again. again ≡ self.now) }
    {
        Ok(Dirs {
            bundles: share_bundles(alloc, self.bundles.as_slice())?,
            last: self.last.copy(alloc)?,
            places: Vec::from_slice(alloc, self.places.as_slice())?,
        })
    }

    /// The directories but for those between two places, with room for so many more.
    ///
    /// A bundle is shared where at least half of its rows stay, and else what stays of it is copied, as is that of the last one: so at most
    /// twice the rows of the directories are kept, of which those of other lists are shared. Linear in the directories.
    pub(crate) fn outside(
        &self,
        alloc: Global,
        at: usize,
        end: usize,
        more: usize,
    ) -> Result<Dirs, AllocError>
        requires order { at ≤ end }
        requires within { end ≤ length self.now }
        ensures { IfOk result (λ rest. rest ≡ take at self.now ++ drop end self.now) }
    {
        let bundles = self.bundles.as_slice();
        let last = &self.last;
        let places = self.places.as_slice();
        let left = rows_left(alloc, bundles, last, places, at, end)?;
        let taken = take_over(alloc, bundles, left.as_slice())?;
        gather(
            alloc,
            bundles,
            last,
            &places[..at],
            &places[end..],
            taken,
            more,
        )
    }

    /// Puts the directories from a place on, up to the last, before those from another on.
    pub(crate) fn put_in_place(
        &mut self,
        alloc: Global,
        at: usize,
        from: usize,
    ) -> Result<(), AllocError>
        requires order { at ≤ from }
        requires within { from ≤ length self.old }
        ensures { OnOk result (self.new ≡ take at self.old ++ (drop from self.old ++ drop at (take from self.old))) }
    {
        self.places = places_put(alloc, self.places.as_slice(), at, from)?;
        Ok(())
    }

    /// Moves each directory to its place, where each has another.
    pub(crate) fn move_to(&mut self, places: Vec<u32>)
        ensures { IsPermutation self.old self.new }
    {
        move_to(&mut self.places, places);
    }

    /// Puts directories in path order; linear where they are.
    pub(crate) fn sort(&mut self)
        ensures { IsPermutation self.old self.new }
    {
        let bundles = self.bundles.as_slice();
        let last = &self.last;
        self.places
            .sort_unstable_by(|a, b| place_cmp(bundles, last, *a, *b));
    }
}
