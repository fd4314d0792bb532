//! What may be wrong with a trace.

ghost use Rattle.std.specs.Prelude.{◌≡◌};
ghost use Rattle.gufi_line.specs.declared.fault.Refused.TheVariants.{Memory as Exhausted};
ghost use Rattle.gufi_line.specs.declared.fault.TraceError.TheVariants.{Memory as NoMemory};

use gufi_base::Memory;
use std::alloc::{AllocError, AllocFailed};
use thiserror::Error;

/// What is wrong with a line.
#[derive(Clone, Copy, Debug, PartialEq, Eq, Error)]
pub enum TraceKind {
    #[error("Short")]
    Short,
    #[error("BadPath")]
    BadPath,
    #[error("LongName")]
    LongName,
    #[error("BadType")]
    BadType,
    #[error("BadNumber {field}")]
    BadNumber { field: u32 },
    #[error("BadXattr")]
    BadXattr,
    #[error("BadAcl")]
    BadAcl,
    #[error("TooManyEntries")]
    TooManyEntries,
    #[error("NotUnderRoot")]
    NotUnderRoot,
    #[error("WrongStanza")]
    WrongStanza,
    #[error("TooMany {limit}")]
    TooMany { limit: u32 },
    #[error("CutLine")]
    CutLine,
}

/// The least faulty line, from 1, and its fault.
#[derive(Clone, Copy, Debug, PartialEq, Eq, Error)]
#[error("line {line}: {kind}")]
pub struct TraceFault {
    pub line: u32,
    pub kind: TraceKind,
}

/// Why a trace isn't read.
#[derive(Clone, Copy, Debug, PartialEq, Eq, Error)]
pub enum TraceError {
    #[error(transparent)]
    Fault(TraceFault),
    #[error("out of memory")]
    Memory,
}

impl From<AllocError> for TraceError {
    ghost from_gives = { λ _ e. e ≡ NoMemory };

    fn from(_e: AllocError) -> TraceError {
        TraceError::Memory
    }
}

impl From<Memory> for TraceError {
    ghost from_gives = { λ _ e. e ≡ NoMemory };

    fn from(_e: Memory) -> TraceError {
        TraceError::Memory
    }
}

/// Why a line is refused, whichever line it is.
#[derive(Clone, Copy)]
pub(crate) enum Refused {
    Fault(TraceKind),
    Memory,
}

impl From<AllocError> for Refused {
    ghost from_gives = { λ _ e. e ≡ Exhausted };

    fn from(_e: AllocError) -> Refused {
        Refused::Memory
    }
}

impl<T: Drop> From<AllocFailed<T>> for Refused {
    ghost from_gives = { λ _ e. e ≡ Exhausted };

    fn from(_e: AllocFailed<T>) -> Refused {
        Refused::Memory
    }
}
