//! The directories of an image.

ghost use Rattle.std.specs.Prelude.{◌≡◌, ◌<◌, ◌^◌, ◌++◌, ◌∷◌, [], slice_get, None, IsTrue, IfOk, MatchOption};
ghost use Rattle.gufi_base.specs.Basics.{ascends};
ghost use Rattle.gufi_base.specs.Names.{is_name};
ghost use Rattle.gufi_tree.specs.Tree.{entry_cmp, entry_count};
ghost use Rattle.gufi_image.specs.Fields.{Gives};
ghost use Rattle.gufi_image.specs.Directories.{root_at, below_at, follows, first_at, other_at, path_at, flag_at, heading_at};
ghost use Rattle.gufi_image.specs.Sorted.{AreSorted, IsParent};
ghost use Rattle.gufi_image.specs.Placed.{IsBelow, IsChild, IsPlaced, IsAbove, LiesIn, IsOpen};
ghost use Rattle.gufi_image.specs.Views.{heading};

use crate::fault::{ImageKind, Refused};
use crate::fields::{flaw, u8_at, u32_at};
use crate::name::{Above, name_at};
use crate::record::record_at;
use crate::width::Width;
use gufi_base::{Kind, Path, PathRef, Rec, text_cmp};
use gufi_tree::{DirRef, Packing, has_entry};
use std::alloc::{AllocError, Global};

/// A flag, with how many bytes are left from it on.
#[derive(Clone, Copy)]
pub(crate) struct Flag {
    pub set: bool,
    pub left: usize,
}

/// A path, with the place of the directory that it lies in; the root lies in itself.
#[derive(Drop)]
pub(crate) struct Located {
    pub path: Path,
    pub parent: u32,
}

/// A directory of which some entries may still be to come, with the place of its parent, its flag and how many entries it has.
#[derive(Drop)]
pub(crate) struct Open {
    pub path: Path,
    pub rec: Rec,
    pub parent: u32,
    pub flag: Flag,
    pub count: u32,
}

/// The root's empty name.
#[tactic(auto, unfolding(crate::specs::Directories::root_at))]
fn root_at(alloc: Global, bytes: &[u8]) -> Result<(Path, &[u8]), Refused>
    ensures gives { Gives (λ x. (x.0, x.1.now)) result (root_at bytes.now) }
    ensures root { IfOk result (λ x. x.0 ≡ []) }
{
    let (count, rest) = u8_at(bytes)?;
    if count != 0 {
        return Err(flaw(bytes, ImageKind::Name));
    }
    Ok((Path::root(alloc)?, rest))
}

/// A path followed by a name. One allocation.
fn child_of(alloc: Global, parent: &PathRef<'_>, name: &[u8]) -> Result<Path, AllocError>
    requires { IsTrue (is_name name.now) }
    ensures { IfOk result (λ path. path ≡ parent.now ++ name.now ∷ []) }
{
    Path::of_parts(alloc, parent.text(), name)
}

/// A path, by its name below its parent, which has no such entry.
#[tactic(auto, unfolding(crate::specs::Directories::below_at))]
fn below_at<'a>(
    alloc: Global,
    bytes: &'a [u8],
    parent: &DirRef<'_>,
) -> Result<(Path, &'a [u8]), Refused>
    requires { IsTrue (ascends entry_cmp parent.now.entries) }
    ensures gives { Gives (λ x. (x.0, x.1.now)) result (below_at parent.now bytes.now) }
    ensures below { IfOk result (λ x. IsBelow parent.now x.0) }
{
    let above = Above::of(parent.path());
    let (name, rest) = name_at(bytes, &above)?;
    if has_entry(parent, name) {
        return Err(flaw(bytes, ImageKind::Name));
    }
    let path = child_of(alloc, &parent.path(), name)?;
    Ok((path, rest))
}

/// Whether a path is above that of the last directory.
fn follows(before: &Packing, path: &Path) -> bool
    ensures { result ≡ follows before.now.dirs path.now }
{
    let count = before.len();
    if count == 0 {
        return true;
    }
    text_cmp(before.at(count - 1).path().text(), path.text()).is_lt()
}

/// The directory at a place.
fn parent_of(before: &Packing, number: u32) -> Option<DirRef<'_>>
    requires { AreSorted before.now.dirs }
    ensures { MatchOption result
        (slice_get before.now.dirs number ≡ None)
        (λ parent. IsParent before.now.dirs number parent) }
{
    let place = number as usize;
    if place >= before.len() {
        return None;
    }
    Some(before.at(place))
}

/// The path of the first directory.
#[tactic(auto, unfolding(crate::specs::Directories::first_at))]
fn first_at<'a>(
    alloc: Global,
    bytes: &'a [u8],
    rest: &'a [u8],
    number: u32,
) -> Result<(Path, &'a [u8]), Refused>
    ensures gives { Gives (λ x. (x.0, x.1.now)) result (first_at number rest.now bytes.now) }
    ensures root { IfOk result (λ x. x.0 ≡ []) }
{
    if number != u32::MAX {
        return Err(flaw(bytes, ImageKind::Parent));
    }
    root_at(alloc, rest)
}

/// The path of another directory, whose parent is before it.
#[tactic(auto, unfolding(crate::specs::Directories::other_at))]
fn other_at<'a>(
    alloc: Global,
    bytes: &'a [u8],
    rest: &'a [u8],
    before: &Packing,
    number: u32,
) -> Result<(Path, &'a [u8]), Refused>
    requires { AreSorted before.now.dirs }
    ensures gives { Gives (λ x. (x.0, x.1.now)) result (other_at before.now.dirs number rest.now bytes.now) }
    ensures child { IfOk result (λ x. IsChild before.now.dirs x.0) }
    ensures above { IfOk result (λ x. IsAbove before.now.dirs number x.0) }
{
    let Some(parent) = parent_of(before, number) else {
        return Err(flaw(bytes, ImageKind::Parent));
    };
    let (path, rest) = below_at(alloc, rest, &parent)?;
    if !follows(before, &path) {
        return Err(flaw(bytes, ImageKind::Order));
    }
    Ok((path, rest))
}

/// The path of a directory behind those before it.
#[tactic(auto, unfolding(crate::specs::Directories::path_at))]
fn path_at<'a>(
    alloc: Global,
    bytes: &'a [u8],
    before: &Packing,
) -> Result<(Located, &'a [u8]), Refused>
    requires { AreSorted before.now.dirs }
    ensures gives { Gives (λ x. (x.0.path, x.1.now)) result (path_at before.now.dirs bytes.now) }
    ensures placed { IfOk result (λ x. IsPlaced before.now.dirs x.0.path) }
    ensures parent { IfOk result (λ x. LiesIn before.now.dirs x.0.path x.0.parent) }
{
    let (number, rest) = u32_at(bytes)?;
    if before.len() == 0 {
        let (path, rest) = first_at(alloc, bytes, rest, number)?;
        return Ok((Located { path, parent: 0 }, rest));
    }
    let (path, rest) = other_at(alloc, bytes, rest, before, number)?;
    let parent = number;
    Ok((Located { path, parent }, rest))
}

#[tactic(auto, unfolding(crate::specs::Directories::flag_at))]
fn flag_at(bytes: &[u8]) -> Result<(Flag, &[u8]), Refused>
    ensures gives { Gives (λ x. (x.0, x.1.now)) result (flag_at bytes.now) }
    ensures left { IfOk result (λ x. x.0.left < 2 ^ 63) }
{
    let (byte, rest) = u8_at(bytes)?;
    if byte > 1 {
        return Err(flaw(bytes, ImageKind::Number));
    }
    let flag = Flag {
        set: byte == 1,
        left: bytes.len(),
    };
    Ok((flag, rest))
}

/// What stands before the entries of a directory behind those before it, which have so many entries of so many in all.
#[tactic(auto, unfolding(crate::specs::Directories::heading_at))]
pub(crate) fn heading_at<'a>(
    alloc: Global,
    bytes: &'a [u8],
    width: Width,
    before: &Packing,
    so_far: u32,
    total: u32,
) -> Result<(Open, &'a [u8]), Refused>
    requires sorted { AreSorted before.now.dirs }
    requires so_far { so_far ≡ entry_count before.now.dirs }
    ensures gives { Gives (λ x. (heading x.0, x.1.now)) result (heading_at width total before.now.dirs bytes.now) }
    ensures part { IfOk result (λ x. IsOpen total before.now.dirs x.0) }
    ensures left { IfOk result (λ x. x.0.flag.left < 2 ^ 63) }
{
    let (located, rest) = path_at(alloc, bytes, before)?;
    let Located { path, parent } = located;
    let (flag, rest) = flag_at(rest)?;
    let (own, counts) = record_at(rest, width, Kind::Dir)?;
    let (count, rest) = u32_at(counts)?;
    if count as u64 + so_far as u64 > total as u64 {
        return Err(flaw(counts, ImageKind::Number));
    }
    let meta = own.numbers.meta();
    let rec = own.rec_ref(&meta).copy(alloc)?;
    let part = Open {
        path,
        rec,
        parent,
        flag,
        count,
    };
    Ok((part, rest))
}
