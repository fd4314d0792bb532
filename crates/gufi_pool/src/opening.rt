//! A job's beginning, on the starting thread.

ghost use Rattle.std.specs.Prelude.{◌≡◌, ◌<◌, ◌≤◌, true, length, List, [], ℕ, All, Contains, IfOk, OnOk};
ghost use Rattle.gufi_pool.specs.Jobs.{IsClosed};
ghost use Rattle.gufi_pool.specs.Openings.{IsOpening, waiting_of};

use crate::job::Job;
use gufi_base::Memory;
use gufi_io::{Gate, GateKind};
use std::alloc::Global;
use std::sync::Wait;

/// The tasks that are known so far, of which the first ones were run; the others wait.
#[derive(Drop)]
pub(crate) struct Opening<P> {
    pub(crate) piece: P,
    pub(crate) tasks: Vec<u32>,
    pub(crate) next: usize,
    /// Whether the task that was run last brought forth others.
    pub(crate) brought: bool,
}

impl<P> Opening<P> {
    /// The tasks that wait.
    pub(crate) fn waiting(&self) -> &[u32]
        requires { self.now.next ≤ length self.now.tasks.items }
        ensures { result.now ≡ waiting_of self.now }
    {
        &self.tasks[self.next..]
    }

    pub(crate) fn into_piece(self) -> P
        ensures { result ≡ self.piece }
    {
        let Opening { piece, .. } = self;
        piece
    }

    /// Whether a task waits, and fewer than are asked for, or at most so many have run and the last one brought forth others: so
    /// tasks whose kids follow each other are dealt by their kids.
    fn goes_on(&self, enough: usize) -> bool
        requires { self.now.next ≤ length self.now.tasks.items }
        ensures { result ≡ true → self.now.next < length self.now.tasks.items }
    {
        let waiting = self.tasks.len() - self.next;
        0 < waiting && (waiting < enough || self.brought && self.next <= enough)
    }
}

fn begin<J: Job>(alloc: Global, job: &J, first: &[u32]) -> Result<Opening<J::Piece>, Memory>
    requires { All (Contains (J.given job.now)) first.now }
    ensures { IfOk result (IsOpening (J.given job.now) first.now (J.kids_of job.now) (J.stands job.now)) }
{
    let piece = job.fresh(alloc)?;
    let tasks = Vec::from_slice(alloc, first)?;
    Ok(Opening {
        piece,
        tasks,
        next: 0,
        brought: false,
    })
}

/// Runs the first of the tasks that wait; its kids wait behind the others.
fn run_next<J: Job, G: Gate + Sync>(
    alloc: Global,
    job: &J,
    gate: &G,
    opening: &mut Opening<J::Piece>,
) -> Result<(), Memory>
    requires next { opening.old.next < length opening.old.tasks.items }
    requires closed { IsClosed (J.given job.now) (J.kids_of job.now) }
    requires opened { (first : List ℕ) × IsOpening (J.given job.now) first (J.kids_of job.now) (J.stands job.now) opening.old }
    ensures { OnOk result ((first : List ℕ) → IsOpening (J.given job.now) first (J.kids_of job.now) (J.stands job.now) opening.old → IsOpening (J.given job.now) first (J.kids_of job.now) (J.stands job.now) opening.new) }
{
    let task = opening.tasks[opening.next];
    let known = opening.tasks.len();
    gate.begin(GateKind::Task, task);
    job.run(alloc, gate, task, &mut opening.piece, &mut opening.tasks)?;
    opening.brought = known < opening.tasks.len();
    opening.next += 1;
    Ok(())
}

/// Runs tasks, the first ones first, until enough of them wait or none is left, and on while they bring forth others, for as many
/// as are enough.
pub(crate) fn open<R: Wait, J: Job, G: Gate + Sync>(
    rt: &R,
    alloc: Global,
    job: &J,
    gate: &G,
    first: &[u32],
    enough: usize,
) -> Result<Opening<J::Piece>, Memory>
    requires given { All (Contains (J.given job.now)) first.now }
    requires closed { IsClosed (J.given job.now) (J.kids_of job.now) }
    ensures { IfOk result (IsOpening (J.given job.now) first.now (J.kids_of job.now) (J.stands job.now)) }
{
    let mut opening = begin(alloc, job, first)?;
    for _ in rt.forever() {
        if !opening.goes_on(enough) {
            break;
        }
        run_next(alloc, job, gate, &mut opening)?;
    }
    Ok(opening)
}
