//! Directories in path order, and their entries in name order.

ghost use Rattle.std.specs.Prelude.{◌≡◌, ◌<◌, ℕ, List, length, slice_index_or, IsTrue, MatchOption};
ghost use Rattle.std.specs.List.{list_all};
ghost use Rattle.std.specs.List.Sorted.{IsPermutation, IsSortedBy};
ghost use Rattle.std.specs.Ordering.{is_lt};
ghost use Rattle.gufi_base.specs.Paths.{path_cmp};
ghost use Rattle.gufi_base.specs.PathTexts.{names, IsText};
ghost use Rattle.gufi_tree.specs.Tree.{entry_cmp, place_of, is_kinded};
ghost use Rattle.gufi_tree.specs.Stored.{directories_of, AreInOrder};
ghost use Rattle.gufi_tree.specs.Gathered.{rows_of, paths_of};

use crate::tree::{Entry, Stored};
use gufi_base::{name_cmp, path_cmp, text_cmp};
use std::cmp::Ordering;

/// Puts directories in path order; linear where they are.
pub(crate) fn sort_directories(stored: &mut Vec<Stored>)
    ensures permutation { IsPermutation stored.old.items stored.new.items }
    ensures order { IsSortedBy (λ x y. is_lt (path_cmp x.path y.path)) stored.new.items }
{
    stored.sort_unstable_by(|a, b| path_cmp(&a.path, &b.path));
}

pub(crate) fn sort_names(entries: &mut Vec<Entry>)
    ensures permutation { IsPermutation entries.old.items entries.new.items }
    ensures order { IsSortedBy (λ x y. is_lt (entry_cmp x y)) entries.new.items }
{
    entries.sort_unstable_by(|a, b| name_cmp(&a.name, &b.name));
}

fn sort_own_entries(dir: &mut Stored)
    ensures path { dir.new.path ≡ dir.old.path }
    ensures rec { dir.new.rec ≡ dir.old.rec }
    ensures permutation { IsPermutation dir.old.entries.items dir.new.entries.items }
    ensures order { IsSortedBy (λ x y. is_lt (entry_cmp x y)) dir.new.entries.items }
{
    sort_names(&mut dir.entries);
}

/// Puts the entries of each directory in name order; linear where they are.
pub(crate) fn sort_entries(stored: &mut Vec<Stored>)
    ensures rows { IsPermutation (rows_of stored.old.items) (rows_of stored.new.items) }
    ensures kinds { list_all is_kinded (directories_of stored.new.items) ≡ list_all is_kinded (directories_of stored.old.items) }
    ensures paths { paths_of stored.new.items ≡ paths_of stored.old.items }
    ensures order { (k : ℕ) (d : Stored) → k < length stored.new.items → IsSortedBy (λ x y. is_lt (entry_cmp x y)) (slice_index_or stored.new.items k d).entries.items }
{
    for dir in stored.iter_mut() {
        sort_own_entries(dir);
    }
}

/// The order of a directory by its path, against a kept text.
pub(crate) fn compare_to(dir: &Stored, text: &[u8]) -> Ordering
    requires { IsText text.now }
    ensures { result ≡ path_cmp dir.now.path (names text.now) }
{
    text_cmp(dir.path.text(), text)
}

/// The place of the directory whose path has this kept text. `O(log n)` comparisons.
pub(crate) fn find_text(stored: &[Stored], text: &[u8]) -> Option<usize>
    requires order { AreInOrder stored.now }
    requires text { IsText text.now }
    ensures { result ≡ place_of (directories_of stored.now) (names text.now) }
{
    stored.binary_search_by(|dir| compare_to(dir, text)).ok()
}
