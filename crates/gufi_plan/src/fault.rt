//! Why an act isn't planned.
ghost use Rattle.std.specs.Prelude.{◌≡◌};
ghost use Rattle.gufi_plan.specs.Faults.{error_at, of_find, of_select};
ghost use Rattle.gufi_plan.specs.declared.fault.ActFault.TheVariants.{Memory as OutOfMemory};

use gufi_base::Memory;
use gufi_find::FindError;
use gufi_script::{ScriptError, ScriptKind};
use gufi_select::SelectError;
use std::alloc::{AllocError, AllocFailed};

/// What is wrong with an act, or want of memory.
#[derive(Clone, Copy, Debug, PartialEq, Eq)]
pub(crate) enum ActFault {
    Kind(ScriptKind),
    Memory,
}

impl From<AllocError> for ActFault {
    ghost from_gives = { λ _ e. e ≡ OutOfMemory };

    fn from(_: AllocError) -> ActFault {
        ActFault::Memory
    }
}

impl<T: Drop> From<AllocFailed<T>> for ActFault {
    ghost from_gives = { λ _ e. e ≡ OutOfMemory };

    fn from(_: AllocFailed<T>) -> ActFault {
        ActFault::Memory
    }
}

impl From<Memory> for ActFault {
    ghost from_gives = { λ _ e. e ≡ OutOfMemory };

    fn from(_: Memory) -> ActFault {
        ActFault::Memory
    }
}

impl From<FindError> for ActFault {
    ghost from_gives = { λ error e. e ≡ of_find error };

    fn from(error: FindError) -> ActFault {
        match error {
            FindError::Fault { .. } => ActFault::Kind(ScriptKind::Query),
            FindError::Memory => ActFault::Memory,
        }
    }
}

impl From<SelectError> for ActFault {
    ghost from_gives = { λ error e. e ≡ of_select error };

    fn from(error: SelectError) -> ActFault {
        match error {
            SelectError::Fault { .. } => ActFault::Kind(ScriptKind::Query),
            SelectError::Memory => ActFault::Memory,
        }
    }
}

/// The fault of an act at a line.
pub(crate) fn error_at(line: u32, fault: ActFault) -> ScriptError
    ensures { result ≡ error_at line fault }
{
    match fault {
        ActFault::Kind(kind) => ScriptError::Fault { line, kind },
        ActFault::Memory => ScriptError::Memory,
    }
}
