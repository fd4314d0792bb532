//! Runs over a list of events.

ghost use Rattle.std.specs.Prelude.{◌≡◌, ◌<◌, ◌^◌, length, IfOk, IsTrue};
ghost use Rattle.gufi_base.specs.Basics.{GivesUnless};
ghost use Rattle.gufi_core.specs.Steps.{run_events as state_after};
ghost use Rattle.gufi_core.specs.Interleavings.{are_shapes, HoldsAfter};

use crate::event::{Event, Refusal};
use crate::machine::Machine;
use crate::state::{Core, Shape};
use gufi_base::Memory;
use std::alloc::Global;

/// Why a run has no state.
#[derive(Clone, Copy, Debug, PartialEq, Eq)]
pub enum CoreFault {
    /// The event at this place, counted from 0, is the first that isn't legal.
    Illegal { at: u32 },
    /// Memory was wanted, and there was none.
    Memory,
}

impl From<Memory> for CoreFault {
    ghost use Rattle.std.specs.Prelude.{◌≡◌};
    ghost use Rattle.gufi_core.specs.declared.run.CoreFault.TheVariants.{Memory};

    ghost from_gives = { λ _ e. e ≡ Memory };

    fn from(_: Memory) -> CoreFault {
        CoreFault::Memory
    }
}

/// The state that the events reach, each of them legal after those before it, from a state in which nothing is
/// published, nothing was seen and no job has begun.
///
/// Of each shape a task occurs at most once among `first` and all `kids`, a kid is greater than its parent, and each
/// task is below the length of `kids`. `Illegal` names the first event that isn't legal. Cost: linear in the events
/// with the first tasks of the jobs that begin and the kids of the tasks that are taken.
pub fn run_events(
    alloc: Global,
    callers: u32,
    shapes: &[Shape],
    events: &[Event],
) -> Result<Core, CoreFault>
    requires shapes { IsTrue (are_shapes shapes.now) }
    requires few { (length shapes.now < 2 ^ 32) × (length events.now < 2 ^ 32) }
    ensures gives { GivesUnless CoreFault.Memory result (state_after callers shapes.now events.now) }
    ensures holds { IfOk result (λ core. HoldsAfter callers shapes.now events.now core) }
{
    let mut machine = Machine::new(alloc, callers)?;
    for (at, event) in events.iter().enumerate() {
        match machine.step(alloc, shapes, *event) {
            Ok(()) => {}
            Err(Refusal::NotLegal) => return Err(CoreFault::Illegal { at: at as u32 }),
            Err(Refusal::Memory) => return Err(CoreFault::Memory),
        }
    }
    Ok(machine.into_core(alloc)?)
}
