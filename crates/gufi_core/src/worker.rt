//! A worker of a running job.

ghost use Rattle.std.specs.Prelude.{◌≡◌, [], ◌∷◌, ◌++◌, drop, false, slice_get, IfOk, OnOk};
ghost use Rattle.gufi_core.specs.Steps.{guarded, is_free as is_free_worker, with_taken, with_deque, take_own, push_own, end_own};
ghost use Rattle.gufi_core.specs.Running.{Stepped, idle_worker};

use crate::event::Refusal;
use crate::state::{Shape, WorkerState};
use gufi_base::{Memory, Nums};
use std::alloc::Global;
use std::collections::VecDeque;
use std::marker::Model;

/// A worker, whose deque gives its front away without a move of the rest.
#[derive(Drop)]
pub(crate) struct Worker {
    deque: VecDeque<u32>,
    taken: Vec<u32>,
    to_push: VecDeque<u32>,
    ended: bool,
}

impl Model for Worker {
    ghost use Rattle.gufi_core.specs.declared.state.WorkerState.{WorkerState};

    ghost Value = { WorkerState };

    ghost view = { λ w. record { deque = w.deque.items; taken = w.taken.items; to_push = w.to_push.items; ended = w.ended } };
}

/// Puts a task behind those that were taken.
fn keep(taken: &mut Vec<u32>, task: u32) -> Result<(), Memory>
    ensures { OnOk result (taken.new.items ≡ taken.old.items ++ task ∷ []) }
{
    taken.push(task)?;
    Ok(())
}

/// Puts the tasks at the back, in their order.
fn push_all(queue: &mut VecDeque<u32>, tasks: &[u32]) -> Result<(), Memory>
    ensures { OnOk result (queue.new.items ≡ queue.old.items ++ tasks.now) }
{
    for task in tasks {
        queue.push_back(*task)?;
    }
    Ok(())
}

impl Worker {
    /// A worker that has done nothing, with an empty deque.
    pub(crate) fn new(alloc: Global) -> Worker
        ensures { result ≡ idle_worker }
    {
        Worker {
            deque: VecDeque::new(alloc),
            taken: Vec::new(alloc),
            to_push: VecDeque::new(alloc),
            ended: false,
        }
    }

    /// Puts a task at the back of the deque.
    pub(crate) fn deal(&mut self, task: u32) -> Result<(), Memory>
        ensures { OnOk result (self.new ≡ with_deque (self.old.deque ++ task ∷ []) self.old) }
    {
        self.deque.push_back(task)?;
        Ok(())
    }

    /// Gives the first task of the deque away.
    pub(crate) fn pop_front(&mut self) -> Option<u32>
        ensures task { result ≡ slice_get self.old.deque 0 }
        ensures rest { self.new ≡ with_deque (drop 1 self.old.deque) self.old }
    {
        self.deque.pop_front()
    }

    /// Whether it may take a task: it hasn't ended, and has nothing to push.
    fn is_free(&self) -> bool
        ensures { result ≡ is_free_worker self.now }
    {
        !self.ended && self.to_push.is_empty()
    }

    /// Takes a task that was found in some deque. Cost: the task's kids.
    pub(crate) fn receive(&mut self, shape: &Shape, task: u32) -> Result<(), Refusal>
        ensures { Stepped (guarded (is_free_worker self.old) (with_taken shape.now task self.old)) self.new result }
    {
        if !self.is_free() {
            return Err(Refusal::NotLegal);
        }
        keep(&mut self.taken, task)?;
        push_all(&mut self.to_push, shape.kids_of(task))?;
        Ok(())
    }

    /// Takes the first task of its own deque.
    pub(crate) fn take(&mut self, shape: &Shape) -> Result<(), Refusal>
        ensures { Stepped (take_own shape.now self.old) self.new result }
    {
        match self.pop_front() {
            Some(task) => self.receive(shape, task),
            None => Err(Refusal::NotLegal),
        }
    }

    /// Puts the first of the tasks to push at the back of its deque.
    pub(crate) fn push(&mut self) -> Result<(), Refusal>
        ensures { Stepped (push_own self.old) self.new result }
    {
        match self.to_push.pop_front() {
            Some(task) => Ok(self.deal(task)?),
            None => Err(Refusal::NotLegal),
        }
    }

    /// Ends, where nothing is left to do.
    pub(crate) fn end(&mut self) -> Result<(), Refusal>
        ensures { Stepped (end_own self.old) self.new result }
    {
        if !self.is_free() || !self.deque.is_empty() {
            return Err(Refusal::NotLegal);
        }
        self.ended = true;
        Ok(())
    }

    /// The worker as a run leaves it.
    pub(crate) fn into_state(self) -> WorkerState
        ensures { result ≡ self }
    {
        WorkerState {
            deque: Nums::of(self.deque.into_vec()),
            taken: Nums::of(self.taken),
            to_push: Nums::of(self.to_push.into_vec()),
            ended: self.ended,
        }
    }
}
