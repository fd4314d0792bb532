//! The state that a run keeps: publications, what each caller has seen, and jobs.

ghost use Rattle.std.specs.Prelude.{◌≡◌, [], ◌∷◌, ◌++◌, length, replicate, slice_get, Some, IfOk, OnOk};
ghost use Rattle.gufi_core.specs.Steps.{change_at, with_seen, names_tree as is_number_of, begin_with, in_job, first_core, step as step_of};
ghost use Rattle.gufi_core.specs.Running.{Stepped, workers_after};

use crate::event::{Action, Event, Refusal};
use crate::job::Job;
use crate::state::{Core, JobState, Shape};
use gufi_base::{Items, Memory, Nums};
use std::alloc::Global;
use std::marker::Model;

/// A state that is changed in place.
#[derive(Drop)]
pub(crate) struct Machine {
    published: Vec<u32>,
    seen: Vec<u64>,
    jobs: Vec<Job>,
}

impl Model for Machine {
    ghost use Rattle.gufi_core.specs.declared.state.Core.{Core};

    ghost Value = { Core };

    ghost view = { λ m. record { published = m.published.items; seen = m.seen.items; jobs = m.jobs.items } };
}

fn push_job(jobs: &mut Vec<Job>, job: Job) -> Result<(), Memory>
    ensures { OnOk result (jobs.new.items ≡ jobs.old.items ++ job ∷ []) }
{
    jobs.push(job)?;
    Ok(())
}

fn jobs_left(alloc: Global, running: Vec<Job>) -> Result<Vec<JobState>, Memory>
    ensures { IfOk result (λ jobs. jobs.items ≡ running.items) }
{
    let mut jobs = Vec::with_capacity(alloc, running.len())?;
    for job in running {
        jobs.push(job.into_state(alloc)?)?;
    }
    Ok(jobs)
}

impl Machine {
    /// No publication, no job, and callers who have seen nothing.
    pub(crate) fn new(alloc: Global, callers: u32) -> Result<Machine, Memory>
        ensures { IfOk result (λ machine. machine ≡ first_core callers) }
    {
        Ok(Machine {
            published: Vec::new(alloc),
            seen: vec![in alloc; 0; callers as usize]?,
            jobs: Vec::new(alloc),
        })
    }

    fn publish(&mut self, tree: u32) -> Result<(), Memory>
        ensures { OnOk result (self.new ≡ record { published = self.old.published ++ tree ∷ []; seen = self.old.seen; jobs = self.old.jobs }) }
    {
        self.published.push(tree)?;
        Ok(())
    }

    fn pin(&mut self, caller: u32) -> Result<(), Refusal>
        ensures { Stepped (with_seen self.old (change_at self.old.seen caller (λ _. Some (length self.old.published)))) self.new result }
    {
        let latest = self.published.len() as u64;
        match self.seen.get_mut(caller as usize) {
            Some(seen) => {
                *seen = latest;
                Ok(())
            }
            None => Err(Refusal::NotLegal),
        }
    }

    /// Whether the publication of that number, counted from 1, is the tree.
    fn names_tree(&self, number: u64, tree: u32) -> bool
        ensures { result ≡ is_number_of self.now.published number tree }
    {
        number > 0 && self.published.get(number as usize - 1) == Some(&tree)
    }

    /// Cost: the shape's first tasks.
    fn begin(
        &mut self,
        alloc: Global,
        shapes: &[Shape],
        caller: u32,
        place: u32,
        workers: u32,
    ) -> Result<(), Refusal>
        ensures { Stepped (begin_with self.old place workers (slice_get self.old.seen caller) (slice_get shapes.now place)) self.new result }
    {
        let Some(number) = self.seen.get(caller as usize) else {
            return Err(Refusal::NotLegal);
        };
        let Some(shape) = shapes.get(place as usize) else {
            return Err(Refusal::NotLegal);
        };
        if workers < 1 || workers > 32 || !self.names_tree(*number, shape.tree) {
            return Err(Refusal::NotLegal);
        }
        let job = Job::begin(alloc, *number, place, shape, workers)?;
        push_job(&mut self.jobs, job)?;
        Ok(())
    }

    fn act(&mut self, shapes: &[Shape], job: u32, action: Action) -> Result<(), Refusal>
        ensures { Stepped (in_job shapes.now self.old job (workers_after action)) self.new result }
    {
        let job = job as usize;
        if job >= self.jobs.len() {
            return Err(Refusal::NotLegal);
        }
        self.jobs[job].act(shapes, action)
    }

    /// One step, where it is legal. Cost: the kids of a task that is taken, the first tasks of a job that begins, and else a constant.
    pub(crate) fn step(
        &mut self,
        alloc: Global,
        shapes: &[Shape],
        event: Event,
    ) -> Result<(), Refusal>
        ensures { Stepped (step_of shapes.now event self.old) self.new result }
    {
        match event {
            Event::Publish { tree } => Ok(self.publish(tree)?),
            Event::Pin { caller } => self.pin(caller),
            Event::Begin {
                caller,
                shape,
                workers,
            } => self.begin(alloc, shapes, caller, shape, workers),
            Event::Take { job, worker } => self.act(shapes, job, Action::Take { worker }),
            Event::Steal { job, thief, victim } => {
                self.act(shapes, job, Action::Steal { thief, victim })
            }
            Event::Push { job, worker } => self.act(shapes, job, Action::Push { worker }),
            Event::End { job, worker } => self.act(shapes, job, Action::End { worker }),
        }
    }

    /// The state as a run leaves it.
    pub(crate) fn into_core(self, alloc: Global) -> Result<Core, Memory>
        ensures { IfOk result (λ core. core ≡ self) }
    {
        let jobs = jobs_left(alloc, self.jobs)?;
        Ok(Core {
            published: Nums::of(self.published),
            seen: Items::of(self.seen),
            jobs: Items::of(jobs),
        })
    }
}
