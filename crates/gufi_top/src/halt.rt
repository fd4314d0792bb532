//! What a run is to write, and why it writes nothing.
ghost use Rattle.std.specs.Prelude.{◌≡◌};
ghost use Rattle.gufi_top.specs.declared.halt.Halt.TheVariants as halts;

use gufi_base::Memory;
use std::alloc::{AllocError, AllocFailed};

/// The whole text, and the note of status 0.
#[derive(Drop)]
pub(crate) struct Output {
    pub(crate) out: Vec<u8>,
    pub(crate) notes: Vec<u8>,
}

/// Why a call of a run gives no value.
#[derive(Drop)]
pub(crate) enum Halt {
    Refused { status: u8, note: Vec<u8> },
    ReadFault,
    Memory,
}

impl From<AllocError> for Halt {
    ghost from_gives = { λ _ e. e ≡ halts.Memory };

    fn from(_: AllocError) -> Halt {
        Halt::Memory
    }
}

impl<T: Drop> From<AllocFailed<T>> for Halt {
    ghost from_gives = { λ _ e. e ≡ halts.Memory };

    fn from(_: AllocFailed<T>) -> Halt {
        Halt::Memory
    }
}

impl From<Memory> for Halt {
    ghost from_gives = { λ _ e. e ≡ halts.Memory };

    fn from(_: Memory) -> Halt {
        Halt::Memory
    }
}

/// A refusal with its status and note.
pub(crate) fn refused<T>(status: u8, note: Vec<u8>) -> Result<T, Halt>
    ensures { result ≡ Err (Halt.Refused status note) }
{
    Err(Halt::Refused { status, note })
}
