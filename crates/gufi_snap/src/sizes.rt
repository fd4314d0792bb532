//! How large a tree with a subtree replaced is, told by sums before anything is copied.

ghost use Rattle.std.specs.Prelude.{◌≡◌, ◌<◌, ◌||◌, nat_lt, length, filter};
ghost use Rattle.gufi_base.specs.Limits.{max_dirs, max_entries};
ghost use Rattle.gufi_base.specs.Paths.{is_prefix};
ghost use Rattle.gufi_tree.specs.Graft.{graft};
ghost use Rattle.gufi_tree.specs.Places.{path_at};
ghost use Rattle.gufi_tree.specs.Tree.{entry_count, is_too_large};

use crate::contents::Contents;
use gufi_tree::DirId;

/// How many directories an index may have.
const MAX_DIRS: u64 = 262144;

/// How many entries an index may have.
const MAX_ENTRIES: u64 = 1048576;

fn is_too_many(dirs: u64, entries: u64) -> bool
    ensures { result ≡ nat_lt max_dirs dirs || nat_lt max_entries entries }
{
    dirs > MAX_DIRS || entries > MAX_ENTRIES
}

impl Contents {
    /// How many entries stand in a directory and in all below it.
    fn entries_below(&self, id: DirId) -> u64
        requires { id.0 < length self.now }
        ensures { result ≡ entry_count (filter (λ dir. is_prefix (path_at self.now id.0) dir.path) self.now) }
    {
        // The tree's clauses tell that its rows can be counted.
        let _tree = self.tree();
        let sum = self.tree_sum(id);
        sum.files + sum.links + sum.others
    }

    /// How many entries there are.
    fn entries(&self) -> u64
        ensures { result ≡ entry_count self.now }
    {
        let _tree = self.tree();
        self.entries_below(DirId(0))
    }

    /// Whether there are more directories or entries than an index may have, once a directory and all below it are replaced.
    pub(crate) fn is_graft_too_large(&self, at: DirId, part: &Contents) -> bool
        requires { at.0 < length self.now }
        ensures { result ≡ is_too_large (graft self.now (path_at self.now at.0) part.now) }
    {
        let kept = self.tree().dirs() - self.dirs_below(at);
        let dirs = u64::from(kept) + u64::from(part.tree().dirs());
        let others = self.entries() - self.entries_below(at);
        is_too_many(dirs, others + part.entries())
    }
}
