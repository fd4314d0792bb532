//! Snapshots with a subtree replaced.

ghost use Rattle.std.specs.Prelude.{◌≡◌, ◌+◌, ◌≤◌, ◌<◌, ◌^◌, filter, length, IfOk, OnOk};
ghost use Rattle.std.specs.List.{flat_map};
ghost use Rattle.gufi_base.specs.Basics.{GivesUnless};
ghost use Rattle.gufi_base.specs.Paths.{is_prefix};
ghost use Rattle.gufi_tree.specs.Graft.{graft};
ghost use Rattle.gufi_tree.specs.Places.{path_at};
ghost use Rattle.gufi_tree.specs.Tree.{own_rows};
ghost use Rattle.gufi_roll.specs.CanRoll.{roll_flags};
ghost use Rattle.gufi_snap.specs.Refreshed.{refreshed};

use crate::contents::Contents;
use crate::flags::{forget_above, known_flags};
use crate::snapshot::Snapshot;
use gufi_base::{Memory, Path, Steps};
use gufi_roll::{roll, roll_from};
use gufi_tree::{DirId, Tree};
use std::alloc::Global;
use std::marker::Brand;
use std::sync::ledger::{Blank, Ledger};

/// Why a subtree isn't replaced.
#[derive(Clone, Copy, Debug, PartialEq, Eq)]
pub enum RefreshFault {
    /// The path is no directory.
    NotThere,
    /// More directories or entries than an index may have.
    TooMany,
    /// A path of more components, or of a longer text, than an index may have.
    TooDeep,
    Memory,
}

impl From<Memory> for RefreshFault {
    ghost use Rattle.std.specs.Prelude.{◌≡◌};
    ghost use Rattle.gufi_snap.specs.declared.refresh.RefreshFault.TheVariants.{Memory};

    ghost from_gives = { λ _ e. e ≡ Memory };

    fn from(_: Memory) -> RefreshFault {
        RefreshFault::Memory
    }
}

impl Snapshot {
    /// The flags of the tree in which a directory and all below it, so many in all, are replaced by a part.
    ///
    /// Those outside are known, but for the directories above, and those of the part are found alone.
    fn flags_after(
        &self,
        alloc: Global,
        at: DirId,
        count: u32,
        part: &Tree,
        tree: &Tree,
    ) -> Result<Vec<bool>, Memory>
        requires within { at.0 < length self.now.tree }
        requires count { count ≡ length (filter (λ dir. is_prefix (path_at self.now.tree at.0) dir.path) self.now.tree) }
        requires tree { tree.now ≡ graft self.now.tree (path_at self.now.tree at.0) part.now }
        ensures { IfOk result (λ flags. flags.items ≡ roll_flags tree.now self.now.limit) }
    {
        // Their clauses tell that both have the shape of a tree.
        let _tree = self.tree();
        let _others = part.dirs();
        let first = at.0 as usize;
        let end = first + count as usize;
        let others = roll(alloc, part, self.limit())?;
        let mut known = known_flags(alloc, self.flags(), first, end, &others)?;
        forget_above(tree, at, &mut known);
        roll_from(alloc, tree, self.limit(), &known)
    }

    /// The snapshot in which a directory and all below it, so many in all, are replaced by a part.
    fn replaced(
        &self,
        alloc: Global,
        at: DirId,
        count: u32,
        part: &Contents,
    ) -> Result<Snapshot, Memory>
        requires within { at.0 < length self.now.tree }
        requires count { count ≡ length (filter (λ dir. is_prefix (path_at self.now.tree at.0) dir.path) self.now.tree) }
        requires few { length (flat_map own_rows (graft self.now.tree (path_at self.now.tree at.0) part.now)) < 2 ^ 32 }
        ensures { IfOk result (λ snap. snap ≡ record { tree = graft self.now.tree (path_at self.now.tree at.0) part.now; limit = self.now.limit }) }
    {
        let contents = self.contents().refreshed(alloc, at, count, part)?;
        let flags = self.flags_after(alloc, at, count, part.tree(), contents.tree())?;
        Snapshot::of(alloc, contents, self.limit(), flags)
    }

    /// The same, unless what is made would be too large or too deep. Nothing is copied before that is known.
    fn refresh_at(
        &self,
        alloc: Global,
        at: DirId,
        part: &Contents,
    ) -> Result<Snapshot, RefreshFault>
        requires { at.0 < length self.now.tree }
        ensures { GivesUnless RefreshFault.Memory result (refreshed self.now (path_at self.now.tree at.0) part.now) }
    {
        if self.contents().is_graft_too_large(at, part) {
            return Err(RefreshFault::TooMany);
        }
        let count = self.contents().dirs_below(at);
        if self.tree().is_graft_too_deep(at, count, part.tree()) {
            return Err(RefreshFault::TooDeep);
        }
        Ok(self.replaced(alloc, at, count, part)?)
    }

    /// The snapshot in which a directory and all below it is replaced by another tree, whose root takes its place. The limit stays.
    ///
    /// One step for each directory of the part, which alone is summed and rolled up anew, beside the directories above it. What
    /// is too large is told by sums before anything is copied. The snapshot itself stays, and shares the rows and sums outside.
    /// Linear in the rows of the part, and a few words for each directory.
    pub fn refresh<L: Ledger>(
        &self,
        alloc: Global,
        at: &Path,
        part: Tree,
        steps: &mut Steps<L>,
    ) -> Result<Snapshot, RefreshFault>
        ensures snapshot { GivesUnless RefreshFault.Memory result (refreshed self.now at.now part) }
        ensures ticks { OnOk result (steps.new ≡ steps.old + length part) }
        ensures at_most { steps.new ≤ steps.old + length part }
    {
        let Some(id) = self.tree().find(at) else {
            return Err(RefreshFault::NotThere);
        };
        let part = Contents::of(alloc, part, steps)?;
        self.refresh_at(alloc, id, &part)
    }

    fn refresh_with<L: Ledger>(
        &self,
        alloc: Global,
        at: &Path,
        part: Tree,
        blank: Blank,
    ) -> Result<Snapshot, RefreshFault>
        requires name { blank.name ≡ L.name }
        requires parts { blank.parts ≡ L.parts }
        requires one { 0 < blank.parts }
        ensures { GivesUnless RefreshFault.Memory result (refreshed self.now at.now part) }
    {
        let mut steps = Steps::<L>::new(blank);
        self.refresh(alloc, at, part, &mut steps)
    }

    /// `refresh`, for callers that count no steps.
    pub fn refresh_uncounted(
        &self,
        alloc: Global,
        at: &Path,
        part: Tree,
    ) -> Result<Snapshot, RefreshFault>
        ensures { GivesUnless RefreshFault.Memory result (refreshed self.now at.now part) }
    {
        self.refresh_with::<Brand>(alloc, at, part, Blank::new(1))
    }
}
