//! What one walker keeps of a walk.

ghost use Rattle.std.specs.Prelude.{◌≡◌, ◌+◌, ◌^◌, ◌<◌, List, OnOk};
ghost use Rattle.gufi_base.specs.declared.record.Row.{Row};
ghost use Rattle.gufi_walk.specs.Chunks.{Hold, chunks_in};

use crate::chunk::Chunk;
use gufi_base::{Memory, Yield};
use std::alloc::Global;
use std::mem;

/// The rows of a walker's tasks, and the tester that it keeps for them.
#[derive(Drop)]
pub(crate) struct WalkPiece<Y, T> {
    /// The chunk to which rows are added.
    pub(crate) last: Chunk<Y>,
    /// Those before it.
    pub(crate) ended: Vec<Chunk<Y>>,
    pub(crate) tester: T,
}

impl<Y: Yield, T> WalkPiece<Y, T> {
    /// Begins a chunk whose first task has this place.
    fn begin_chunk(&mut self, alloc: Global, task: u32, unsettled: bool) -> Result<(), Memory>
        ensures rows { OnOk result ((rows : List Row) → Hold Y.stands_for (chunks_in self.old) rows → Hold Y.stands_for (chunks_in self.new) rows) }
        ensures most { OnOk result (self.new.last.most ≡ 0) }
        ensures tester { OnOk result (self.new.tester ≡ self.old.tester) }
    {
        let next = Chunk::at(alloc, task, unsettled)?;
        let mut chunk = mem::replace(&mut self.last, next);
        chunk.settle(alloc)?;
        self.ended.push(chunk)?;
        Ok(())
    }

    /// Makes ready for the rows of a task, so many at most: they are to stand in a chunk of their own unless the task follows those
    /// of the last one.
    pub(crate) fn make_ready(
        &mut self,
        alloc: Global,
        task: u32,
        rows: u64,
        goes_on: bool,
        unsettled: bool,
    ) -> Result<(), Memory>
        requires { rows < 2 ^ 40 }
        ensures rows { OnOk result ((of : List Row) → Hold Y.stands_for (chunks_in self.old) of → Hold Y.stands_for (chunks_in self.new) of) }
        ensures room { OnOk result (self.new.last.most + rows < 2 ^ 40) }
        ensures tester { OnOk result (self.new.tester ≡ self.old.tester) }
    {
        if !(goes_on && self.last.has_room(rows)) {
            self.begin_chunk(alloc, task, unsettled)?;
        }
        Ok(())
    }
}
