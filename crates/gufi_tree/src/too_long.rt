//! Directories that have a row whose path is too long.

ghost use Rattle.std.specs.Prelude.{◌≡◌, ◌+◌, ◌≤◌, ◌||◌, nat_lt, [], length, take, drop, true, false, All};
ghost use Rattle.std.specs.List.{list_any};
ghost use Rattle.gufi_base.specs.PathTexts.{kept_text};
ghost use Rattle.gufi_tree.specs.Graft.{has_long_row, is_over, leaves_room};

use crate::borrowed::{DirRef, EntriesRef};
use crate::dirs::Dirs;
use gufi_base::PathRef;

/// A path of so many bytes has at most 255 names, since each takes two bytes at least: one of its own and a slash.
const FEW: u128 = 510;

/// The path of the root.
fn root_path<'a>() -> PathRef<'a>
    ensures { result ≡ [] }
{
    PathRef::of_text(b"/".as_slice())
}

/// How many names a path has below another.
fn names_below(above: &PathRef<'_>, path: &PathRef<'_>) -> u128
    ensures { result ≡ length above.now + length path.now }
{
    above.depth() as u128 + path.depth() as u128
}

/// Whether a path of so many bytes, below another, leaves room for a name more and its slash.
fn has_room(above: &PathRef<'_>, path: &PathRef<'_>, bytes: u128) -> bool
    requires { bytes + 2 ≡ length (kept_text above.now) + length (kept_text path.now) }
    ensures { result ≡ leaves_room (length above.now + length path.now) bytes }
{
    // A path's own text tells that its names are names.
    let _front = above.text();
    let _text = path.text();
    bytes <= FEW || (bytes < 4096 && names_below(above, path) < 256)
}

/// Whether a path of so many names and bytes, which leaves no room, is too long, or that of an entry below it.
fn is_any_over(names: u128, bytes: u128, entries: &EntriesRef<'_>) -> bool
    ensures { result ≡ (is_over names bytes || nat_lt 0 (length entries.now)) }
{
    names > 256 || bytes > 4096 || entries.len() > 0
}

/// Whether a directory, put below a path, has a row whose path is too long. Names are looked at where its path has more than 3,840 bytes.
fn directory_has_long_row(above: &PathRef<'_>, dir: &DirRef<'_>) -> bool
    ensures { result ≡ has_long_row above.now dir.now }
{
    let path = dir.path();
    let entries = dir.entries();
    let bytes = above.text().len() as u128 + path.text().len() as u128 - 2;
    if has_room(above, &path, bytes) {
        return entries.has_name_over((4095 - bytes) as usize);
    }
    let names = names_below(above, &path);
    is_any_over(names, bytes, &entries)
}

/// Whether all paths are so short that no directory, put below a path, has a row whose path is too long. Looks at bundles alone.
fn are_all_short(above: &PathRef<'_>, dirs: &Dirs) -> bool
    ensures { result ≡ true → All (λ dir. has_long_row above.now dir ≡ false) dirs.now }
{
    above.text().len() as u128 + dirs.longest() as u128 <= FEW + 2
}

/// Whether one of the directories from a place on, up to another, has such a row.
pub(crate) fn any_has_long_row(above: &PathRef<'_>, dirs: &Dirs, from: usize, end: usize) -> bool
    requires order { from ≤ end }
    requires within { end ≤ length dirs.now }
    ensures { result ≡ list_any (has_long_row above.now) (drop from (take end dirs.now)) }
{
    if are_all_short(above, dirs) {
        return false;
    }
    for place in from..end {
        if directory_has_long_row(above, &dirs.at(place)) {
            return true;
        }
    }
    false
}

/// Whether one of the directories before a place, or from another on, has such a row where it stands.
pub(crate) fn any_has_long_row_outside(dirs: &Dirs, at: usize, end: usize) -> bool
    requires order { at ≤ end }
    requires within { end ≤ length dirs.now }
    ensures { result ≡ (list_any (has_long_row []) (take at dirs.now) || list_any (has_long_row []) (drop end dirs.now)) }
{
    let root = root_path();
    any_has_long_row(&root, dirs, 0, at) || any_has_long_row(&root, dirs, end, dirs.len())
}
