//! A tree with a subtree replaced by another tree.

ghost use Rattle.std.specs.Prelude.{◌≡◌, ◌+◌, ◌-◌, ◌<◌, ◌≤◌, ◌^◌, ◌++◌, ◌∷◌, [], length, take, drop, filter, map, All, IfOk, OnOk, IsTrue};
ghost use Rattle.std.specs.List.{flat_map, list_all};
ghost use Rattle.gufi_base.specs.Names.{is_name};
ghost use Rattle.gufi_base.specs.Paths.{is_prefix};
ghost use Rattle.gufi_base.specs.PathTexts.{kept_text};
ghost use Rattle.gufi_tree.specs.Graft.{graft, graft_parents, is_too_deep, moved, put_below};
ghost use Rattle.gufi_tree.specs.Kept.{AreWithin};
ghost use Rattle.gufi_tree.specs.Packs.{entries_of};
ghost use Rattle.gufi_tree.specs.Places.{path_at};
ghost use Rattle.gufi_tree.specs.Tree.{own_rows};

use crate::borrowed::{DirRef, EntriesRef};
use crate::dirs::Dirs;
use crate::pending::Pending;
use crate::too_long::{any_has_long_row, any_has_long_row_outside};
use crate::tree::{DirId, Tree};
use gufi_base::{Memory, PathRef};
use std::alloc::{AllocError, Global};

/// The kept text of a path that is put below another.
#[tactic(auto, using(crate::proofs::Joined::joined_names))]
fn join_paths(text: &mut Vec<u8>, path: &PathRef<'_>, below: &PathRef<'_>) -> Result<(), AllocError>
    ensures text { OnOk result (text.new.items ≡ kept_text (path.now ++ below.now)) }
    ensures names { IsTrue (list_all is_name (path.now ++ below.now)) }
{
    let front = path.text();
    let rest = below.text();
    text.clear();
    text.extend_from_slice(front)?;
    text.extend_from_slice(&rest[1..])?;
    Ok(())
}

/// Adds the entries of a directory.
pub(crate) fn push_entries(
    pending: &mut Pending,
    entries: &EntriesRef<'_>,
) -> Result<(), AllocError>
    ensures { OnOk result (entries_of pending.new ≡ entries_of pending.old ++ entries.now) }
{
    for place in 0..entries.len() {
        let entry = entries.at(place);
        pending.push(0, entry.name(), &entry.rec())?;
    }
    Ok(())
}

/// Adds a directory, put below a path.
fn push_below(
    alloc: Global,
    dirs: &mut Dirs,
    path: &PathRef<'_>,
    dir: &DirRef<'_>,
    pending: &mut Pending,
    text: &mut Vec<u8>,
) -> Result<(), AllocError>
    ensures { OnOk result (dirs.new ≡ dirs.old ++ put_below path.now dir.now ∷ []) }
{
    pending.clear();
    push_entries(pending, &dir.entries())?;
    join_paths(text, path, &dir.path())?;
    let joined = PathRef::of_text(text.as_slice());
    dirs.close(alloc, &joined, &dir.rec(), pending)?;
    Ok(())
}

/// Adds directories, put below a path.
fn push_all_below(
    alloc: Global,
    dirs: &mut Dirs,
    path: &PathRef<'_>,
    part: &Dirs,
) -> Result<(), AllocError>
    ensures { OnOk result (dirs.new ≡ dirs.old ++ map (put_below path.now) part.now) }
{
    let mut pending = Pending::new(alloc);
    let mut text = Vec::new(alloc);
    for place in 0..part.len() {
        push_below(alloc, dirs, path, &part.at(place), &mut pending, &mut text)?;
    }
    Ok(())
}

/// Directories, of which those from a place on, up to another, are replaced by others, put below the path of the first of them.
fn graft_dirs(
    alloc: Global,
    dirs: &Dirs,
    at: usize,
    end: usize,
    part: &Dirs,
) -> Result<Dirs, AllocError>
    requires at { at < length dirs.now }
    requires order { at ≤ end }
    requires end { end ≤ length dirs.now }
    ensures { IfOk result (λ grafted. grafted ≡ take at dirs.now ++ (map (put_below (path_at dirs.now at)) part.now ++ drop end dirs.now)) }
{
    let path = dirs.at(at).path();
    let mut grafted = dirs.outside(alloc, at, end, part.len())?;
    let outside = grafted.len();
    push_all_below(alloc, &mut grafted, &path, part)?;
    grafted.put_in_place(alloc, at, outside)?;
    Ok(grafted)
}

/// Where a parent stands, if what stands from one place on is moved to another.
fn moved(parent: u32, from: u32, to: u32) -> u32
    requires { moved from to parent < 2 ^ 32 }
    ensures { result ≡ moved from to parent }
{
    if parent < from {
        parent
    } else {
        parent - from + to
    }
}

/// Adds parents, moved so.
fn push_moved(parents: &mut Vec<u32>, some: &[u32], from: u32, to: u32) -> Result<(), AllocError>
    requires { All (λ parent. moved from to parent < 2 ^ 32) some.now }
    ensures { OnOk result (parents.new.items ≡ parents.old.items ++ map (moved from to) some.now) }
{
    for parent in some {
        parents.push(moved(*parent, from, to))?;
    }
    Ok(())
}

/// The parents' places in a graft, by those in the tree and in the part.
fn graft_parents(
    alloc: Global,
    parents: &[u32],
    at: usize,
    end: usize,
    part: &[u32],
) -> Result<Vec<u32>, AllocError>
    requires at { at < end }
    requires end { end ≤ length parents.now }
    requires part { 0 < length part.now }
    requires within { AreWithin parents.now × AreWithin part.now }
    requires few { (length parents.now < 2 ^ 32) × (at + length part.now + (length parents.now - end) < 2 ^ 32) }
    ensures { IfOk result (λ moved. moved.items ≡ graft_parents parents.now at end part.now) }
{
    let behind = at + part.len();
    let mut moved = Vec::with_capacity(alloc, behind + (parents.len() - end))?;
    moved.extend_from_slice(&parents[..at + 1])?;
    push_moved(&mut moved, &part[1..], 0, at as u32)?;
    push_moved(&mut moved, &parents[end..], end as u32, behind as u32)?;
    Ok(moved)
}

impl Tree {
    /// The tree in which a directory and all below it, so many in all, are replaced by another tree. Its root takes the directory's place.
    ///
    /// Directories outside are shared, in bundles; those of the part are copied. Linear in the directories.
    pub fn graft(&self, alloc: Global, at: DirId, count: u32, part: &Tree) -> Result<Tree, Memory>
        requires within { at.0 < length self.now }
        requires count { count ≡ length (filter (λ dir. is_prefix (path_at self.now at.0) dir.path) self.now) }
        requires rows { length (flat_map own_rows (graft self.now (path_at self.now at.0) part.now)) < 2 ^ 32 }
        ensures { IfOk result (λ tree. tree ≡ graft self.now (path_at self.now at.0) part.now) }
    {
        let first = at.0 as usize;
        let end = first + count as usize;
        let dirs = graft_dirs(alloc, self.kept(), first, end, part.kept())?;
        let parents = graft_parents(alloc, self.parents(), first, end, part.parents())?;
        Ok(Tree::with_parents(alloc, dirs, parents)?)
    }

    /// Whether a path of the graft has more than 256 components or 4,096 bytes of text.
    ///
    /// Where all paths are short it looks at bundles alone. Else it is linear in the directories, and names are looked at below paths of
    /// more than 3,840 bytes.
    pub fn is_graft_too_deep(&self, at: DirId, count: u32, part: &Tree) -> bool
        requires within { at.0 < length self.now }
        requires count { count ≡ length (filter (λ dir. is_prefix (path_at self.now at.0) dir.path) self.now) }
        ensures { result ≡ is_too_deep (graft self.now (path_at self.now at.0) part.now) }
    {
        let first = at.0 as usize;
        let end = first + count as usize;
        let below = self.path(at);
        let dirs = self.kept();
        let put = part.kept();
        any_has_long_row(&below, put, 0, put.len()) || any_has_long_row_outside(dirs, first, end)
    }
}
