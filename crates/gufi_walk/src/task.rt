//! A walk as a job of tasks. A task is a directory of the front; where few directories are at and below it, it takes them all.

ghost use Rattle.std.specs.Prelude.{◌≡◌, ℕ, ◌+◌, ◌^◌, ◌<◌, ◌≤◌, true, List, [], ◌∷◌, ◌++◌, length, filter, map, All, Contains, IfOk, OnOk};
ghost use Rattle.std.specs.List.{flat_map};
ghost use Rattle.gufi_base.specs.declared.record.Row.{Row};
ghost use Rattle.gufi_tree.specs.Places.{path_at};
ghost use Rattle.gufi_snap.specs.Pieces.{piece, tree_sum};
ghost use Rattle.gufi_walk.specs.Walk.{lists_at, kid_ids, meets, is_ruled_out, is_whole, task_dirs, task_kids, task_rows, open_places};
ghost use Rattle.gufi_walk.specs.Chunks.{Hold, chunks_in};

use crate::chunk::Chunk;
use crate::descent::{add_rows_below, goes_below, lies_within, may_be_listed, sees_all, visit};
use crate::piece::WalkPiece;
use gufi_access::Principal;
use gufi_base::{Memory, Pred, Steps, Yield};
use gufi_io::Gate;
use gufi_pool::Job;
use gufi_snap::Snapshot;
use gufi_sums::Skip;
use gufi_tree::DirId;
use std::alloc::{AllocError, Global};
use std::marker::{Brand, PhantomData};
use std::sync::ledger::{Blank, Ledger};

/// A walk from a start.
#[derive(Drop)]
pub(crate) struct Walk<'a, P: Pred, Y, S: Skip> {
    pub(crate) snap: &'a Snapshot,
    pub(crate) who: &'a Principal,
    pub(crate) start: DirId,
    /// How many components the start has.
    pub(crate) above: u32,
    pub(crate) pred: &'a P,
    pub(crate) skip: &'a S,
    /// Of how many directories a task takes all that is at and below it.
    pub(crate) grain: u64,
    /// Whether each walker puts the rows of each of its chunks in order, once, so that walkers share that work too.
    pub(crate) settles: bool,
    pub(crate) collects: PhantomData<Y>,
    ghost above_is: { above ≡ length (path_at snap.now.tree start.0) },
    ghost query: { (row : Row) (depth : ℕ) → P.sat pred.now row depth ≡ true → S.query skip.now row depth ≡ true },
}

/// Adds the place of a directory that may be listed.
fn push_if_listed(
    kids: &mut Vec<u32>,
    snap: &Snapshot,
    who: &Principal,
    id: DirId,
) -> Result<(), AllocError>
    requires { id.0 < length snap.now.tree }
    ensures { OnOk result (kids.new.items ≡ kids.old.items ++ map (λ id. id.0) (filter (λ id. lists_at snap.now.tree who.now (path_at snap.now.tree id.0)) (id ∷ []))) }
{
    if may_be_listed(snap, who, id) {
        kids.push(id.0)?;
    }
    Ok(())
}

/// Adds the places of the directories that may be listed.
#[tactic(auto, using(crate::proofs::Tasks::places_more))]
fn push_listed(
    kids: &mut Vec<u32>,
    snap: &Snapshot,
    who: &Principal,
    ids: &[DirId],
) -> Result<(), AllocError>
    requires { All (λ id. id.0 < length snap.now.tree) ids.now }
    ensures { OnOk result (kids.new.items ≡ kids.old.items ++ map (λ id. id.0) (filter (λ id. lists_at snap.now.tree who.now (path_at snap.now.tree id.0)) ids.now)) }
{
    for id in ids {
        push_if_listed(kids, snap, who, *id)?;
    }
    Ok(())
}

/// Adds the places where a walk goes on from a directory.
fn push_places(
    kids: &mut Vec<u32>,
    snap: &Snapshot,
    who: &Principal,
    id: DirId,
) -> Result<(), AllocError>
    requires { id.0 < length snap.now.tree }
    ensures { OnOk result (kids.new.items ≡ kids.old.items ++ map (λ id. id.0) (kid_ids snap.now.tree who.now (path_at snap.now.tree id.0) snap.now.limit)) }
{
    if snap.rolled(id) {
        return Ok(());
    }
    push_listed(kids, snap, who, snap.tree().subdirs(id))
}

impl<P: Pred, Y: Yield, S: Skip> Walk<'_, P, Y, S> {
    /// How many directories there are at and below one. It looks at no sum.
    fn dirs_below(&self, id: DirId) -> u32
        requires { id.0 < length self.now.snap.now.tree }
        ensures { result ≡ (tree_sum self.now.snap.now.tree (path_at self.now.snap.now.tree id.0)).dirs }
    {
        // The tree's shape tells that the sum at and below the directory counts them.
        let tree = self.snap.tree();
        tree.dirs_below(id)
    }

    /// Whether all that is at and below a directory is ruled out. Where no sum is to be asked, or the principal may not list all
    /// that it counts, it looks at none.
    fn rules_out_below(&self, id: DirId) -> bool
        requires { id.0 < length self.now.snap.now.tree }
        ensures { result ≡ is_ruled_out (S.skips self.now.skip.now) self.now.snap.now.tree self.now.who.now (path_at self.now.snap.now.tree id.0) }
    {
        // The tree's shape tells that the sum counts the directory.
        let _tree = self.snap.tree();
        if !sees_all(self.who) {
            return false;
        }
        self.skip.asks_sums() && self.skip.none_match(&self.snap.tree_sum(id))
    }

    /// Whether a task takes all directories at and below its own: where they are few, or ruled out, or those below lie too deep. So
    /// no directory that lies too deep is a task, however many there are.
    fn is_whole(&self, id: DirId) -> bool
        requires id { id.0 < length self.now.snap.now.tree }
        requires above { self.now.above ≤ length (path_at self.now.snap.now.tree id.0) }
        ensures { result ≡ is_whole (S.skips self.now.skip.now) (S.deepest self.now.skip.now) self.now.above self.now.snap.now.tree self.now.who.now self.now.grain (path_at self.now.snap.now.tree id.0) }
    {
        u64::from(self.dirs_below(id)) <= self.grain
            || !goes_below(self.snap, id, self.skip, self.above)
            || self.rules_out_below(id)
    }

    /// How many directories stand from a task's first to its last, those that may not be listed among them. It looks at a sum only
    /// where the question asks for sums.
    fn reach(&self, id: DirId) -> u32
        requires id { id.0 < length self.now.snap.now.tree }
        requires above { self.now.above ≤ length (path_at self.now.snap.now.tree id.0) }
    {
        if self.is_whole(id) || self.snap.rolled(id) {
            self.dirs_below(id)
        } else {
            1
        }
    }

    /// How many rows a task adds at most: no more than a tree has, which are fewer than 2^32. It looks at no sum.
    fn most_rows(&self, id: DirId) -> u64
        requires given { Contains (open_places self.now.snap.now.tree self.now.who.now (path_at self.now.snap.now.tree self.now.start.0)) id.0 }
        ensures rows { length (flat_map (λ path. piece self.now.snap.now.tree path self.now.snap.now.limit)
            (task_dirs (is_whole (S.skips self.now.skip.now) (S.deepest self.now.skip.now) self.now.above self.now.snap.now.tree self.now.who.now self.now.grain) self.now.snap.now.tree self.now.who.now self.now.snap.now.limit (path_at self.now.snap.now.tree id.0))) ≤ result }
        ensures few { result < 2 ^ 40 }
    {
        // Its clauses tell that the directory of a task may be listed, and how many rows a tree has.
        let _count = self.snap.tree().dirs();
        u64::from(u32::MAX)
    }

    /// Adds the rows of a task.
    fn add_rows<G: Gate, L: Ledger>(
        &self,
        alloc: Global,
        gate: &G,
        id: DirId,
        tester: &mut P::Tester,
        out: &mut Y,
        blank: Blank,
    ) -> Result<(), Memory>
        requires name { blank.name ≡ L.name }
        requires parts { blank.parts ≡ L.parts }
        requires one { 0 < blank.parts }
        requires given { Contains (open_places self.now.snap.now.tree self.now.who.now (path_at self.now.snap.now.tree self.now.start.0)) id.0 }
        requires tester { P.Tester.meets tester.old ≡ P.sat self.now.pred.now }
        requires room { Y.count out.old + length (flat_map (λ path. piece self.now.snap.now.tree path self.now.snap.now.limit)
            (task_dirs (is_whole (S.skips self.now.skip.now) (S.deepest self.now.skip.now) self.now.above self.now.snap.now.tree self.now.who.now self.now.grain) self.now.snap.now.tree self.now.who.now self.now.snap.now.limit (path_at self.now.snap.now.tree id.0))) < 2 ^ 40 }
        requires rows { (rows : List Row) × Y.stands_for out.old rows }
        ensures rows { OnOk result ((rows : List Row) → Y.stands_for out.old rows →
            Y.stands_for out.new (rows ++ task_rows (is_whole (S.skips self.now.skip.now) (S.deepest self.now.skip.now) self.now.above self.now.snap.now.tree self.now.who.now self.now.grain) self.now.snap.now.tree self.now.who.now self.now.snap.now.limit (meets (P.sat self.now.pred.now) self.now.above) id.0)) }
        ensures tester { OnOk result (P.Tester.meets tester.new ≡ P.Tester.meets tester.old) }
    {
        // The tree's shape tells how deep the directory of a task lies.
        let _tree = self.snap.tree();
        if !lies_within(self.snap, id, self.skip, self.above) {
            return Ok(());
        }
        if self.rules_out_below(id) {
            return Ok(());
        }
        let mut steps = Steps::<L>::new(blank);
        if self.is_whole(id) {
            return add_rows_below(
                alloc, self.snap, self.who, id, tester, self.skip, self.above, gate, out,
                &mut steps,
            );
        }
        visit(
            alloc, self.snap, self.who, id, tester, self.skip, self.above, gate, out, &mut steps,
        )?;
        Ok(())
    }

    /// Whether from a place up to another one stand only directories that may not be listed, with what lies below them.
    fn none_listed(&self, from: u64, to: u32) -> bool
        requires { to < length self.now.snap.now.tree }
    {
        let mut place = from;
        'places: while place < u64::from(to) {
            let id = DirId(place as u32);
            if may_be_listed(self.snap, self.who, id) {
                return false;
            }
            place = place.saturating_add(u64::from(self.dirs_below(id)).max(1));
        }
        place == u64::from(to)
    }

    /// Whether the rows of a task may stand behind those of a chunk: where no task can lie between, and the chunk hasn't half as
    /// many directories as a task may take.
    fn follows(&self, chunk: &Chunk<Y>, task: u32) -> bool
        requires { task < length self.now.snap.now.tree }
    {
        chunk.directories() < self.grain / 2 && self.none_listed(chunk.end, task)
    }

    /// Adds the tasks that a task brings forth.
    fn push_kids(&self, kids: &mut Vec<u32>, id: DirId) -> Result<(), AllocError>
        requires id { id.0 < length self.now.snap.now.tree }
        requires above { self.now.above ≤ length (path_at self.now.snap.now.tree id.0) }
        ensures { OnOk result (kids.new.items ≡ kids.old.items ++ task_kids (is_whole (S.skips self.now.skip.now) (S.deepest self.now.skip.now) self.now.above self.now.snap.now.tree self.now.who.now self.now.grain) self.now.snap.now.tree self.now.who.now self.now.snap.now.limit id.0) }
    {
        if !self.is_whole(id) {
            push_places(kids, self.snap, self.who, id)?;
        }
        Ok(())
    }
}

impl<'a, P: Pred + Sync, Y: Yield + Send + Sync, S: Skip + Sync> Job for Walk<'a, P, Y, S>
where
    P::Tester: Send,
{
    type Piece = WalkPiece<Y, P::Tester>;

    ghost given = { λ w. open_places w.snap.now.tree w.who.now (path_at w.snap.now.tree w.start.0) };

    ghost kids_of = { λ w task. task_kids (is_whole (S.skips w.skip.now) (S.deepest w.skip.now) w.above w.snap.now.tree w.who.now w.grain) w.snap.now.tree w.who.now w.snap.now.limit task };

    ghost stands = { λ w piece ran. Hold Y.stands_for (chunks_in piece) (flat_map (task_rows (is_whole (S.skips w.skip.now) (S.deepest w.skip.now) w.above w.snap.now.tree w.who.now w.grain) w.snap.now.tree w.who.now w.snap.now.limit (meets (P.sat w.pred.now) w.above)) ran)
        × (P.Tester.meets piece.tester ≡ P.sat w.pred.now) };

    fn fresh(&self, alloc: Global) -> Result<WalkPiece<Y, P::Tester>, Memory> {
        let last = Chunk::at(alloc, 0, self.settles)?;
        let tester = self.pred.tester(alloc)?;
        Ok(WalkPiece {
            last,
            ended: Vec::new(alloc),
            tester,
        })
    }

    fn run<G: Gate>(
        &self,
        alloc: Global,
        gate: &G,
        task: u32,
        piece: &mut WalkPiece<Y, P::Tester>,
        kids: &mut Vec<u32>,
    ) -> Result<(), Memory> {
        // The tree's shape tells that the directory of a task may be listed.
        let _tree = self.snap.tree();
        let id = DirId(task);
        let rows = self.most_rows(id);
        let goes_on = self.follows(&piece.last, task);
        piece.make_ready(alloc, task, rows, goes_on, self.settles)?;
        self.add_rows::<G, Brand>(
            alloc,
            gate,
            id,
            &mut piece.tester,
            &mut piece.last.rows,
            Blank::new(1),
        )?;
        piece.last.end = u64::from(task) + u64::from(self.reach(id));
        piece.last.most += rows;
        self.push_kids(kids, id)?;
        Ok(())
    }
}
