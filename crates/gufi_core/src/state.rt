//! What a run is over, and what it leaves.

ghost use Rattle.std.specs.Prelude.{◌≡◌};
ghost use Rattle.gufi_core.specs.Steps.{kids_of as kids_in};

use gufi_base::{Items, Nums};

/// The tasks of a job over one tree. A task is a directory number.
#[derive(Drop)]
pub struct Shape {
    pub tree: u32,
    /// The tasks that a job begins with.
    pub first: Nums,
    /// For each task the tasks that it brings forth.
    pub kids: Items<Nums>,
}

/// A worker of a job.
#[derive(Drop)]
pub struct WorkerState {
    /// The tasks that wait, the first one in front.
    pub deque: Nums,
    /// The tasks that it took, in their order.
    pub taken: Nums,
    /// The kids of the task that it took last which it has still to push.
    pub to_push: Nums,
    pub ended: bool,
}

/// A job.
#[derive(Drop)]
pub struct JobState {
    /// The publication that it is over, counted from 1.
    pub number: u64,
    /// The place of its shape.
    pub shape: u32,
    pub workers: Items<WorkerState>,
}

/// The state that a list of legal events leaves.
#[derive(Drop)]
pub struct Core {
    /// The published trees, in their order.
    pub published: Nums,
    /// For each caller the number of the publication that it has seen, 0 where it has seen none.
    pub seen: Items<u64>,
    /// The jobs, in the order in which they began.
    pub jobs: Items<JobState>,
}

impl Shape {
    /// The tasks that a task brings forth.
    pub(crate) fn kids_of(&self, task: u32) -> &[u32]
        ensures { result.now ≡ kids_in self.now task }
    {
        match self.kids.as_slice().get(task as usize) {
            Some(kids) => kids.as_slice(),
            None => &[],
        }
    }
}
