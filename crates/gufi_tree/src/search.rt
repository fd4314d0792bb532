//! Searches among directories and entries that stand in order.

ghost use Rattle.std.specs.Prelude.{◌≡◌, ◌<◌, length, slice_index_or, IsTrue};
ghost use Rattle.gufi_base.specs.Basics.{ascends};
ghost use Rattle.gufi_base.specs.Paths.{path_cmp};
ghost use Rattle.gufi_base.specs.PathTexts.{names, IsText};
ghost use Rattle.std.specs.Ordering.{nat_cmp};
ghost use Rattle.std.specs.Cmp.Lexicographic.{slice_cmp};
ghost use Rattle.gufi_tree.specs.declared.tree.Entry.{Entry as SeenEntry};
ghost use Rattle.gufi_tree.specs.Tree.{Directory, dir_cmp, entry_cmp, place_of, has_entry_named};

use crate::borrowed::{DirRef, EntriesRef};
use crate::dirs::Dirs;
use gufi_base::{PathRef, text_cmp};
use std::cmp::Ordering;

/// The order of paths: component by component, each by its bytes, a proper prefix first.
pub(crate) fn order_of(a: &PathRef<'_>, b: &PathRef<'_>) -> Ordering
    ensures { result ≡ path_cmp a.now b.now }
{
    text_cmp(a.text(), b.text())
}

/// The order of the directory at a place by its path, against another path.
fn compare_at(dirs: &Dirs, place: usize, path: &PathRef<'_>) -> Ordering
    requires { place < length dirs.now }
    ensures { (d : Directory) → result ≡ path_cmp (slice_index_or dirs.now place d).path path.now }
{
    order_of(&dirs.at(place).path(), path)
}

/// The place of the directory with a path. `O(log n)` comparisons.
fn find_path(dirs: &Dirs, path: &PathRef<'_>) -> Option<usize>
    requires { IsTrue (ascends dir_cmp dirs.now) }
    ensures { result ≡ place_of dirs.now path.now }
{
    let mut low = 0;
    let mut high = dirs.len();
    while low < high {
        let middle = low + (high - low) / 2;
        match compare_at(dirs, middle, path) {
            Ordering::Equal => return Some(middle),
            Ordering::Less => low = middle + 1,
            Ordering::Greater => high = middle,
        }
    }
    None
}

/// The place of the directory whose path has this kept text. `O(log n)` comparisons.
pub(crate) fn find_dir(dirs: &Dirs, text: &[u8]) -> Option<usize>
    requires order { IsTrue (ascends dir_cmp dirs.now) }
    requires text { IsText text.now }
    ensures { result ≡ place_of dirs.now (names text.now) }
{
    find_path(dirs, &PathRef::of_text(text))
}

/// The order of the entry at a place by its name, against another name.
fn compare_name_at(entries: &EntriesRef<'_>, place: usize, name: &[u8]) -> Ordering
    requires { place < length entries.now }
    ensures { (e : SeenEntry) → result ≡ slice_cmp nat_cmp (slice_index_or entries.now place e).name name.now }
{
    entries.at(place).name().cmp(name)
}

/// Whether a directory has an entry with a name. `O(log n)` comparisons.
pub fn has_entry(dir: &DirRef<'_>, name: &[u8]) -> bool
    requires { IsTrue (ascends entry_cmp dir.now.entries) }
    ensures { result ≡ has_entry_named name.now dir.now }
{
    let entries = dir.entries();
    let mut low = 0;
    let mut high = entries.len();
    while low < high {
        let middle = low + (high - low) / 2;
        match compare_name_at(&entries, middle, name) {
            Ordering::Equal => return true,
            Ordering::Less => low = middle + 1,
            Ordering::Greater => high = middle,
        }
    }
    false
}
