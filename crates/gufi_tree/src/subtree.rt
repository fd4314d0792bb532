//! How many directories there are at and below one.

ghost use Rattle.std.specs.Prelude.{◌≡◌, ◌<◌, ◌≤◌, ℕ, length, filter, true, false};
ghost use Rattle.gufi_base.specs.Paths.{is_prefix};
ghost use Rattle.gufi_tree.specs.Places.{path_at};
ghost use Rattle.gufi_tree.specs.Tree.{HasTreeShape};
ghost use Rattle.gufi_tree.specs.Subtree.{IsLastBelow};

use crate::tree::{DirId, Tree};

impl Tree {
    /// The last directory at or below one: the last one below its last subdirectory, or itself.
    fn last_below(&self, id: DirId) -> DirId
        requires within { id.0 < length self.now }
        requires shape { HasTreeShape self.now }
        ensures { IsLastBelow self.now id.0 result.0 }
    {
        let mut last = id;
        'levels: while let Some(kid) = self.subdirs(last).last() {
            last = *kid;
        }
        last
    }

    /// How many directories there are at and below one. A look at one directory's subdirectories on each level below it.
    pub fn dirs_below(&self, id: DirId) -> u32
        requires { id.0 < length self.now }
        ensures { result ≡ length (filter (λ dir. is_prefix (path_at self.now id.0) dir.path) self.now) }
    {
        // Its clause tells that they are counted by a number of 32 bits.
        let _count = self.dirs();
        self.last_below(id).0 - id.0 + 1
    }
}
