//! A running job: its workers over one shape.

ghost use Rattle.std.specs.Prelude.{◌≡◌, ◌<◌, ◌≤◌, drop, length, replicate, option_and_then, slice_get, slice_set, Some, IfOk};
ghost use Rattle.gufi_core.specs.declared.state.WorkerState.{WorkerState as Seen};
ghost use Rattle.gufi_core.specs.Steps.{change_at, guarded, is_free, with_taken, with_deque, with_workers, take_own, push_own, end_own, steal, fresh_workers};
ghost use Rattle.gufi_core.specs.Running.{Stepped, workers_after, idle_worker};

use crate::event::{Action, Refusal};
use crate::state::{JobState, Shape, WorkerState};
use crate::worker::Worker;
use gufi_base::{Items, Memory};
use std::alloc::Global;
use std::marker::Model;

/// A job that is running.
#[derive(Drop)]
pub(crate) struct Job {
    number: u64,
    shape: u32,
    workers: Vec<Worker>,
}

impl Model for Job {
    ghost use Rattle.gufi_core.specs.declared.state.JobState.{JobState};

    ghost Value = { JobState };

    ghost view = { λ j. record { number = j.number; shape = j.shape; workers = j.workers.items } };
}

fn take_at(workers: &mut [Worker], at: u32, shape: &Shape) -> Result<(), Refusal>
    ensures { Stepped (change_at workers.old at (take_own shape.now)) workers.new result }
{
    let at = at as usize;
    if at >= workers.len() {
        return Err(Refusal::NotLegal);
    }
    workers[at].take(shape)
}

fn push_at(workers: &mut [Worker], at: u32) -> Result<(), Refusal>
    ensures { Stepped (change_at workers.old at push_own) workers.new result }
{
    let at = at as usize;
    if at >= workers.len() {
        return Err(Refusal::NotLegal);
    }
    workers[at].push()
}

fn end_at(workers: &mut [Worker], at: u32) -> Result<(), Refusal>
    ensures { Stepped (change_at workers.old at end_own) workers.new result }
{
    let at = at as usize;
    if at >= workers.len() {
        return Err(Refusal::NotLegal);
    }
    workers[at].end()
}

fn receive_at(workers: &mut [Worker], at: u32, shape: &Shape, task: u32) -> Result<(), Refusal>
    ensures { Stepped (change_at workers.old at (λ w. guarded (is_free w) (with_taken shape.now task w))) workers.new result }
{
    let at = at as usize;
    if at >= workers.len() {
        return Err(Refusal::NotLegal);
    }
    workers[at].receive(shape, task)
}

/// Takes the first task out of a worker's deque.
fn pop_front_at(workers: &mut [Worker], at: u32) -> Option<u32>
    ensures task { result ≡ option_and_then (λ from. slice_get from.deque 0) (slice_get workers.old at) }
    ensures rest { (from : Seen) → slice_get workers.old at ≡ Some from → workers.new ≡ slice_set workers.old at (with_deque (drop 1 from.deque) from) }
{
    let at = at as usize;
    if at >= workers.len() {
        return None;
    }
    workers[at].pop_front()
}

fn steal_at(workers: &mut [Worker], thief: u32, victim: u32, shape: &Shape) -> Result<(), Refusal>
    ensures { Stepped (steal shape.now workers.old thief victim) workers.new result }
{
    if thief == victim {
        return Err(Refusal::NotLegal);
    }
    match pop_front_at(workers, victim) {
        Some(task) => receive_at(workers, thief, shape, task),
        None => Err(Refusal::NotLegal),
    }
}

fn act_on(workers: &mut [Worker], shape: &Shape, action: Action) -> Result<(), Refusal>
    ensures { Stepped (workers_after action shape.now workers.old) workers.new result }
{
    match action {
        Action::Take { worker } => take_at(workers, worker, shape),
        Action::Steal { thief, victim } => steal_at(workers, thief, victim, shape),
        Action::Push { worker } => push_at(workers, worker),
        Action::End { worker } => end_at(workers, worker),
    }
}

/// Workers that have done nothing.
fn idle_workers(alloc: Global, count: u32) -> Result<Vec<Worker>, Memory>
    ensures { IfOk result (λ workers. workers.items ≡ replicate count idle_worker) }
{
    let mut workers = Vec::with_capacity(alloc, count as usize)?;
    for _ in 0..count {
        workers.push(Worker::new(alloc))?;
    }
    Ok(workers)
}

/// Workers to whom the tasks are dealt in turn.
fn dealt_workers(alloc: Global, count: u32, first: &[u32]) -> Result<Vec<Worker>, Memory>
    requires { 0 < count }
    ensures { IfOk result (λ workers. workers.items ≡ fresh_workers count first.now) }
{
    let mut workers = idle_workers(alloc, count)?;
    for (place, task) in first.iter().enumerate() {
        let worker = &mut workers[place % count as usize];
        worker.deal(*task)?;
    }
    Ok(workers)
}

fn workers_left(alloc: Global, running: Vec<Worker>) -> Result<Vec<WorkerState>, Memory>
    ensures { IfOk result (λ workers. workers.items ≡ running.items) }
{
    let mut workers = Vec::with_capacity(alloc, running.len())?;
    for worker in running {
        workers.push(worker.into_state())?;
    }
    Ok(workers)
}

impl Job {
    /// A job that begins, with the shape's first tasks dealt in turn.
    pub(crate) fn begin(
        alloc: Global,
        number: u64,
        place: u32,
        shape: &Shape,
        count: u32,
    ) -> Result<Job, Memory>
        requires { 0 < count }
        ensures { IfOk result (λ job. job ≡ record { number = number; shape = place; workers = fresh_workers count shape.now.first }) }
    {
        let workers = dealt_workers(alloc, count, shape.first.as_slice())?;
        Ok(Job {
            number,
            shape: place,
            workers,
        })
    }

    /// A worker acts. Cost: the kids of a task that is taken, and else a constant.
    pub(crate) fn act(&mut self, shapes: &[Shape], action: Action) -> Result<(), Refusal>
        ensures { Stepped (with_workers self.old (option_and_then (λ shape. workers_after action shape self.old.workers) (slice_get shapes.now self.old.shape))) self.new result }
    {
        let place = self.shape as usize;
        if place >= shapes.len() {
            return Err(Refusal::NotLegal);
        }
        act_on(&mut self.workers, &shapes[place], action)
    }

    /// The job as a run leaves it.
    pub(crate) fn into_state(self, alloc: Global) -> Result<JobState, Memory>
        ensures { IfOk result (λ state. state ≡ self) }
    {
        let workers = workers_left(alloc, self.workers)?;
        Ok(JobState {
            number: self.number,
            shape: self.shape,
            workers: Items::of(workers),
        })
    }
}
