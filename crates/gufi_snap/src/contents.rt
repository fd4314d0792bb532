//! What a snapshot keeps under every limit.

ghost use Rattle.std.specs.Prelude.{◌≡◌, ◌+◌, ◌≤◌, ◌<◌, ◌^◌, List, ◌++◌, filter, map, length, All, IfOk, OnOk};
ghost use Rattle.std.specs.List.{flat_map};
ghost use Rattle.gufi_base.specs.declared.record.Row.{Row};
ghost use Rattle.gufi_base.specs.Paths.{is_prefix};
ghost use Rattle.gufi_tree.specs.Tree.{own_rows, home_rows, subtree_rows, HasTreeShape};
ghost use Rattle.gufi_tree.specs.Graft.{graft};
ghost use Rattle.gufi_tree.specs.Places.{path_at};
ghost use Rattle.gufi_store.specs.Scan.{is_met};
ghost use Rattle.gufi_sums.specs.Total.{IsTotal};

use crate::stores::{sums_of, sums_uncounted};
use crate::sums::{add_above, own_sum, sum_below};
use gufi_base::{Memory, Steps, Tester, View, Yield};
use gufi_store::{DirStore, scan_fold};
use gufi_sums::{SharedSums, Summary};
use gufi_tree::{DirId, DirRange, Tree};
use std::alloc::Global;
use std::marker::Model;
use std::sync::ledger::Ledger;

/// A tree, and the sums of the rows of its directories where they are kept.
///
/// Rows are kept once: the tree lends a store its directory, and a fold the range of its directories.
#[derive(Drop)]
pub(crate) struct Contents {
    tree: Tree,
    sums: Option<SharedSums>,
}

impl Model for Contents {
    ghost use Rattle.gufi_tree.specs.Tree.{Directory};
    ghost use Rattle.std.specs.Prelude.{List};

    ghost Value = { List Directory };

    ghost use Rattle.gufi_snap.specs.Kept.{IsKept};

    ghost view = { λ c. c.tree };

    ghost invariant = { λ c. IsKept c.tree c.sums };
}

impl Contents {
    /// A tree with the sums of its directories. One step for each directory.
    pub(crate) fn of<L: Ledger>(
        alloc: Global,
        tree: Tree,
        steps: &mut Steps<L>,
    ) -> Result<Contents, Memory>
        ensures contents { IfOk result (λ contents. contents ≡ tree) }
        ensures ticks { OnOk result (steps.new ≡ steps.old + length tree) }
        ensures at_most { steps.new ≤ steps.old + length tree }
    {
        let sums = sums_of(alloc, &tree, steps)?;
        Ok(Contents {
            tree,
            sums: Some(sums),
        })
    }

    /// A tree without sums, which are made anew each time that one is asked for.
    pub(crate) fn bare(tree: Tree) -> Contents
        ensures { result ≡ tree }
    {
        Contents { tree, sums: None }
    }

    /// The same with sums, made if there are none. Linear in the rows then.
    pub(crate) fn summed(self, alloc: Global) -> Result<Contents, Memory>
        ensures { IfOk result (λ contents. contents ≡ self) }
    {
        if self.sums.is_some() {
            return Ok(self);
        }
        let sums = sums_uncounted(alloc, &self.tree)?;
        Ok(Contents {
            tree: self.tree,
            sums: Some(sums),
        })
    }

    pub(crate) fn keeps_sums(&self) -> bool {
        self.sums.is_some()
    }

    /// The tree in which a directory and all below it, so many in all, are replaced by another tree, with its sums.
    ///
    /// Rows and sums outside and of the part are shared. Only the directories above it are summed again. Where either has no sums,
    /// neither has what is made.
    pub(crate) fn refreshed(
        &self,
        alloc: Global,
        at: DirId,
        count: u32,
        part: &Contents,
    ) -> Result<Contents, Memory>
        requires within { at.0 < length self.now }
        requires count { count ≡ length (filter (λ dir. is_prefix (path_at self.now at.0) dir.path) self.now) }
        requires few { length (flat_map own_rows (graft self.now (path_at self.now at.0) part.now)) < 2 ^ 32 }
        ensures { IfOk result (λ contents. contents ≡ graft self.now (path_at self.now at.0) part.now) }
    {
        let tree = self.tree.graft(alloc, at, count, &part.tree)?;
        let (Some(sums), Some(others)) = (&self.sums, &part.sums) else {
            return Ok(Contents::bare(tree));
        };
        let first = at.0 as usize;
        let end = first + count as usize;
        let mut sums = sums.spliced(alloc, first, end, others)?;
        add_above(alloc, &tree, at, &mut sums)?;
        Ok(Contents {
            tree,
            sums: Some(sums),
        })
    }

    pub(crate) fn tree(&self) -> &Tree
        ensures tree { result.now ≡ self.now }
        ensures shape { HasTreeShape self.now }
        ensures few { length (flat_map own_rows self.now) < 2 ^ 32 }
    {
        &self.tree
    }

    /// The sum of a directory's own row and its entries. `O(1)`, or linear in these where no sums are kept.
    #[inline]
    pub(crate) fn dir_sum(&self, id: DirId) -> Summary
        requires { id.0 < length self.now }
        ensures { IsTotal result (home_rows self.now (path_at self.now id.0)) }
    {
        match &self.sums {
            Some(sums) => *sums.own(id.0 as usize),
            None => own_sum(&self.tree.dir(id)),
        }
    }

    /// The sum of the rows at and below a directory. `O(1)`, or linear in these where no sums are kept.
    #[inline]
    pub(crate) fn tree_sum(&self, id: DirId) -> Summary
        requires { id.0 < length self.now }
        ensures { IsTotal result (subtree_rows self.now (path_at self.now id.0)) }
    {
        match &self.sums {
            Some(sums) => *sums.below(id.0 as usize),
            None => sum_below(&self.tree, id),
        }
    }

    /// How many directories there are at and below one.
    pub(crate) fn dirs_below(&self, id: DirId) -> u32
        requires { id.0 < length self.now }
        ensures { result ≡ length (filter (λ dir. is_prefix (path_at self.now id.0) dir.path) self.now) }
    {
        self.tree.dirs_below(id)
    }

    /// The stores of a directory and of all below it, which stand side by side.
    fn stores_below(&self, id: DirId) -> DirRange<'_>
        requires { id.0 < length self.now }
        ensures dirs { result ≡ filter (λ dir. is_prefix (path_at self.now id.0) dir.path) self.now }
        ensures shape { HasTreeShape self.now }
        ensures deep { All (λ dir. length (path_at self.now id.0) ≤ length dir.path) result }
    {
        let count = self.dirs_below(id);
        self.tree.range(id, count)
    }

    /// Adds the rows of a directory itself as they are shown, those that meet the question so. One step.
    pub(crate) fn scan_own<T: Tester, V: View, Y: Yield, L: Ledger>(
        &self,
        alloc: Global,
        id: DirId,
        tester: &mut T,
        view: &V,
        above: u32,
        out: &mut Y,
        steps: &mut Steps<L>,
    ) -> Result<(), Memory>
        requires id { id.0 < length self.now }
        requires above { above ≤ length (path_at self.now id.0) }
        requires room { Y.count out.old + length (home_rows self.now (path_at self.now id.0)) < 2 ^ 40 }
        requires rows { (rows : List Row) × Y.stands_for out.old rows }
        ensures rows { OnOk result ((rows : List Row) → Y.stands_for out.old rows →
            Y.stands_for out.new (rows ++ filter (is_met above (T.meets tester.old)) (map (V.shows view.now) (home_rows self.now (path_at self.now id.0))))) }
        ensures same { T.meets tester.new ≡ T.meets tester.old }
        ensures tick { steps.new ≡ steps.old + 1 }
    {
        DirStore::again(self.tree.dir(id)).scan(alloc, tester, view, above, out, steps)
    }

    /// Adds the rows at and below a directory as they are shown, those that meet the question so. One step for all.
    pub(crate) fn scan_below<T: Tester, V: View, Y: Yield, L: Ledger>(
        &self,
        alloc: Global,
        id: DirId,
        tester: &mut T,
        view: &V,
        above: u32,
        out: &mut Y,
        steps: &mut Steps<L>,
    ) -> Result<(), Memory>
        requires id { id.0 < length self.now }
        requires above { above ≤ length (path_at self.now id.0) }
        requires room { Y.count out.old + length (subtree_rows self.now (path_at self.now id.0)) < 2 ^ 40 }
        requires rows { (rows : List Row) × Y.stands_for out.old rows }
        ensures rows { OnOk result ((rows : List Row) → Y.stands_for out.old rows →
            Y.stands_for out.new (rows ++ filter (is_met above (T.meets tester.old)) (map (V.shows view.now) (subtree_rows self.now (path_at self.now id.0))))) }
        ensures same { T.meets tester.new ≡ T.meets tester.old }
        ensures tick { steps.new ≡ steps.old + 1 }
    {
        scan_fold(
            alloc,
            &self.stores_below(id),
            tester,
            view,
            above,
            out,
            steps,
        )
    }
}
