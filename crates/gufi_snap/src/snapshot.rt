//! Snapshots.

ghost use Rattle.std.specs.Prelude.{◌≡◌, ◌+◌, ◌≤◌, ◌<◌, ◌^◌, List, ◌++◌, filter, map, length, IfOk, OnOk};
ghost use Rattle.std.specs.Arc.{arc_value};
ghost use Rattle.gufi_base.specs.declared.record.Row.{Row};
ghost use Rattle.gufi_base.specs.Rows.{depth_below};
ghost use Rattle.gufi_tree.specs.Tree.{all_rows, home_rows, subtree_rows, HasTreeShape};
ghost use Rattle.gufi_tree.specs.Places.{path_at};
ghost use Rattle.gufi_sums.specs.Total.{IsTotal};
ghost use Rattle.gufi_roll.specs.CanRoll.{can_roll, roll_flags};
ghost use Rattle.gufi_snap.specs.Pieces.{piece, dir_sum, tree_sum};

use crate::contents::Contents;
use gufi_base::{Memory, Steps, Tester, View, Yield};
use gufi_roll::roll;
use gufi_sums::Summary;
use gufi_tree::{DirId, Tree};
use std::alloc::Global;
use std::marker::{Brand, Model};
use std::sync::Arc;
use std::sync::ledger::{Blank, Ledger};

/// A tree, the sums of the rows of its directories where they are kept, and what is rolled up under a limit.
///
/// Snapshots of one tree under several limits share all but what is rolled up.
#[derive(Drop)]
pub struct Snapshot {
    contents: Arc<Contents, Global>,
    limit: u64,
    flags: Vec<bool>,
}

impl Model for Snapshot {
    ghost use Rattle.gufi_snap.specs.Snap.{Snap};

    ghost Value = { Snap };

    ghost use Rattle.std.specs.Prelude.{◌≡◌};
    ghost use Rattle.std.specs.Arc.{arc_value};
    ghost use Rattle.gufi_roll.specs.CanRoll.{roll_flags};

    ghost view = { λ s. record { tree = arc_value s.contents; limit = s.limit } };

    ghost invariant = { λ s. s.flags.items ≡ roll_flags (arc_value s.contents) s.limit };
}

impl Snapshot {
    /// The snapshot of a tree, whose roll-up has this limit on the rows of a piece. One step for each directory.
    ///
    /// Linear in the rows.
    pub fn build<L: Ledger>(
        alloc: Global,
        tree: Tree,
        limit: u64,
        steps: &mut Steps<L>,
    ) -> Result<Snapshot, Memory>
        ensures snapshot { IfOk result (λ snap. snap ≡ record { tree = tree; limit = limit }) }
        ensures ticks { OnOk result (steps.new ≡ steps.old + length tree) }
        ensures at_most { steps.new ≤ steps.old + length tree }
    {
        let contents = Contents::of(alloc, tree, steps)?;
        Snapshot::under(alloc, Arc::new(alloc, contents)?, limit)
    }

    fn build_with<L: Ledger>(
        alloc: Global,
        tree: Tree,
        limit: u64,
        blank: Blank,
    ) -> Result<Snapshot, Memory>
        requires name { blank.name ≡ L.name }
        requires parts { blank.parts ≡ L.parts }
        requires one { 0 < blank.parts }
        ensures { IfOk result (λ snap. snap ≡ record { tree = tree; limit = limit }) }
    {
        let mut steps = Steps::<L>::new(blank);
        Snapshot::build(alloc, tree, limit, &mut steps)
    }

    /// `build`, for callers that count no steps.
    pub fn build_uncounted(alloc: Global, tree: Tree, limit: u64) -> Result<Snapshot, Memory>
        ensures { IfOk result (λ snap. snap ≡ record { tree = tree; limit = limit }) }
    {
        Snapshot::build_with::<Brand>(alloc, tree, limit, Blank::new(1))
    }

    /// The snapshot of a tree, without sums: each that is asked for is made anew, so that it suits an answer that asks for few.
    /// [`Snapshot::with_sums`] makes them. Linear in the directories.
    pub fn bare(alloc: Global, tree: Tree, limit: u64) -> Result<Snapshot, Memory>
        ensures { IfOk result (λ snap. snap ≡ record { tree = tree; limit = limit }) }
    {
        Snapshot::under(alloc, Arc::new(alloc, Contents::bare(tree))?, limit)
    }

    /// The same snapshot with sums, made if it has none. Linear in the rows then.
    ///
    /// Where other snapshots share its tree, it is left as it is.
    pub fn with_sums(self, alloc: Global) -> Result<Snapshot, Memory>
        ensures { IfOk result (λ snap. snap ≡ self) }
    {
        let contents = match Arc::try_unwrap(self.contents) {
            Ok(own) => Arc::new(alloc, own.summed(alloc)?)?,
            Err(shared) => shared,
        };
        Ok(Snapshot {
            contents,
            limit: self.limit,
            flags: self.flags,
        })
    }

    /// The same tree under another limit. Its tree and sums are shared; only what is rolled up is found anew.
    ///
    /// Linear in the directories. Where it has no sums, the other has none.
    pub fn with_limit(&self, alloc: Global, limit: u64) -> Result<Snapshot, Memory>
        ensures { IfOk result (λ snap. snap ≡ record { tree = self.now.tree; limit = limit }) }
    {
        Snapshot::under(alloc, Arc::try_clone(&self.contents)?, limit)
    }

    fn under(alloc: Global, contents: Arc<Contents, Global>, limit: u64) -> Result<Snapshot, Memory>
        ensures { IfOk result (λ snap. snap ≡ record { tree = arc_value contents; limit = limit }) }
    {
        let flags = roll(alloc, contents.tree(), limit)?;
        Ok(Snapshot {
            contents,
            limit,
            flags,
        })
    }

    /// A tree with its sums and with its flags under a limit.
    pub(crate) fn of(
        alloc: Global,
        contents: Contents,
        limit: u64,
        flags: Vec<bool>,
    ) -> Result<Snapshot, Memory>
        requires { flags.items ≡ roll_flags contents limit }
        ensures { IfOk result (λ snap. snap ≡ record { tree = contents; limit = limit }) }
    {
        let contents = Arc::new(alloc, contents)?;
        Ok(Snapshot {
            contents,
            limit,
            flags,
        })
    }

    pub(crate) fn contents(&self) -> &Contents
        ensures { result.now ≡ self.now.tree }
    {
        &self.contents
    }

    /// Which directories are rolled up, in path order.
    pub(crate) fn flags(&self) -> &[bool]
        ensures { result.now ≡ roll_flags self.now.tree self.now.limit }
    {
        &self.flags
    }

    /// The tree.
    pub fn tree(&self) -> &Tree
        ensures tree { result.now ≡ self.now.tree }
        ensures shape { HasTreeShape self.now.tree }
        ensures few { length (all_rows self.now.tree) < 2 ^ 40 }
    {
        self.contents.tree()
    }

    /// Whether sums are kept, so that each costs `O(1)`. What a snapshot stands for doesn't hang on it, so no clause tells.
    pub fn keeps_sums(&self) -> bool {
        self.contents.keeps_sums()
    }

    /// How many rows a piece may have.
    pub fn limit(&self) -> u64
        ensures { result ≡ self.now.limit }
    {
        self.limit
    }

    /// Whether a directory is rolled up: what is at and below it is one piece.
    pub fn rolled(&self, id: DirId) -> bool
        requires { id.0 < length self.now.tree }
        ensures { result ≡ can_roll self.now.tree self.now.limit (path_at self.now.tree id.0) }
    {
        self.flags[id.0 as usize]
    }

    /// The sum of a directory's own row and its entries. `O(1)`, or linear in these where no sums are kept.
    #[inline]
    pub fn dir_sum(&self, id: DirId) -> Summary
        requires { id.0 < length self.now.tree }
        ensures sum { result ≡ dir_sum self.now.tree (path_at self.now.tree id.0) }
        ensures total { IsTotal result (home_rows self.now.tree (path_at self.now.tree id.0)) }
    {
        self.contents.dir_sum(id)
    }

    /// The sum of the rows at and below a directory. `O(1)`, or linear in these where no sums are kept.
    #[inline]
    pub fn tree_sum(&self, id: DirId) -> Summary
        requires { id.0 < length self.now.tree }
        ensures sum { result ≡ tree_sum self.now.tree (path_at self.now.tree id.0) }
        ensures total { IsTotal result (subtree_rows self.now.tree (path_at self.now.tree id.0)) }
    {
        self.contents.tree_sum(id)
    }

    /// Adds the rows of a directory's piece as they are shown, those that meet the question so: its own row and its entries'
    /// rows, or, where it is rolled up, all rows at and below it. One step.
    ///
    /// `above` is how many components the start has, below which depths are counted.
    pub fn scan_piece<T: Tester, V: View, Y: Yield, L: Ledger>(
        &self,
        alloc: Global,
        id: DirId,
        tester: &mut T,
        view: &V,
        above: u32,
        out: &mut Y,
        steps: &mut Steps<L>,
    ) -> Result<(), Memory>
        requires id { id.0 < length self.now.tree }
        requires above { above ≤ length (path_at self.now.tree id.0) }
        requires room { Y.count out.old + length (piece self.now.tree (path_at self.now.tree id.0) self.now.limit) < 2 ^ 40 }
        requires rows { (rows : List Row) × Y.stands_for out.old rows }
        ensures rows { OnOk result ((rows : List Row) → Y.stands_for out.old rows →
            Y.stands_for out.new (rows ++ filter (λ row. T.meets tester.old row (depth_below above row)) (map (V.shows view.now) (piece self.now.tree (path_at self.now.tree id.0) self.now.limit)))) }
        ensures same { T.meets tester.new ≡ T.meets tester.old }
        ensures tick { steps.new ≡ steps.old + 1 }
    {
        if self.rolled(id) {
            return self
                .contents
                .scan_below(alloc, id, tester, view, above, out, steps);
        }
        self.contents
            .scan_own(alloc, id, tester, view, above, out, steps)
    }
}
