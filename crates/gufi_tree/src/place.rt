//! Entries whose lines stand apart from their directories.

ghost use Rattle.std.specs.Prelude.{◌≡◌, ◌<◌, ◌++◌, ◌∷◌, [], not, ◌||◌, map, length, slice_index_or, IsTrue, MatchOption, OnOk};
ghost use Rattle.std.specs.List.{list_all};
ghost use Rattle.std.specs.List.Sorted.{IsPermutation};
ghost use Rattle.gufi_base.specs.Basics.{is_empty};
ghost use Rattle.gufi_base.specs.Paths.{parent_path, is_child_of};
ghost use Rattle.gufi_tree.specs.Tree.{has_dir, is_kinded};
ghost use Rattle.gufi_tree.specs.Stored.{directories_of, AreInOrder};
ghost use Rattle.gufi_tree.specs.Gathered.{row_of_line, rows_of, has_home, paths_of};

use crate::gather::push_at;
use crate::sort::find_text;
use crate::tree::Stored;
use gufi_base::Line;
use std::alloc::AllocError;

/// The place of the directory that a line lies in.
fn home_of(stored: &[Stored], line: &Line) -> Option<usize>
    requires { AreInOrder stored.now }
    ensures { MatchOption result
        (IsTrue (is_empty line.now.path || not (has_dir (directories_of stored.now) (parent_path line.now.path))))
        (λ at. (at < length stored.now) × ((d : Stored) → IsTrue (is_child_of (slice_index_or stored.now at d).path line.now.path))) }
{
    // A path's own text tells that its names are names.
    let _text = line.path.text();
    let parent = line.path.parent_text()?;
    find_text(stored, parent)
}

/// Adds the entry of a line to the directory that it lies in.
fn place_line(stored: &mut Vec<Stored>, line: Line) -> Result<(), AllocError>
    requires order { AreInOrder stored.old.items }
    ensures rows { OnOk result (IsTrue (has_home (directories_of stored.old.items) line) → IsPermutation (rows_of stored.old.items ++ row_of_line line ∷ []) (rows_of stored.new.items)) }
    ensures kinds { OnOk result (IsTrue (has_home (directories_of stored.old.items) line) → IsTrue (list_all is_kinded (directories_of stored.old.items)) → IsTrue (list_all is_kinded (directories_of stored.new.items))) }
    ensures paths { paths_of stored.new.items ≡ paths_of stored.old.items }
{
    match home_of(stored.as_slice(), &line) {
        None => Ok(()),
        Some(at) => push_at(stored, at, line),
    }
}

/// Adds the entries of lines to the directories that they lie in.
pub(crate) fn place(stored: &mut Vec<Stored>, loose: Vec<Line>) -> Result<(), AllocError>
    requires order { AreInOrder stored.old.items }
    requires homes { IsTrue (list_all (has_home (directories_of stored.old.items)) loose.items) }
    ensures rows { OnOk result (IsPermutation (rows_of stored.old.items ++ map row_of_line loose.items) (rows_of stored.new.items)) }
    ensures kinds { OnOk result (IsTrue (list_all is_kinded (directories_of stored.old.items)) → IsTrue (list_all is_kinded (directories_of stored.new.items))) }
    ensures paths { OnOk result (paths_of stored.new.items ≡ paths_of stored.old.items) }
{
    for line in loose {
        place_line(stored, line)?;
    }
    Ok(())
}
