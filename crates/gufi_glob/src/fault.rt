//! Why bytes are no pattern.
ghost use Rattle.std.specs.Prelude.{◌≡◌};
ghost use Rattle.gufi_glob.specs.declared.fault.GlobFault.TheVariants.{Memory};

use std::alloc::{AllocError, AllocFailed};

/// Why bytes are no pattern.
#[derive(Clone, Copy, Debug, PartialEq, Eq)]
pub enum GlobFault {
    /// A last backslash that makes nothing ordinary, a range that falls, or `[:`, `[.` or `[=` in a bracket.
    BadPattern,
    Memory,
}

impl From<AllocError> for GlobFault {
    ghost from_gives = { λ _ e. e ≡ Memory };

    fn from(_: AllocError) -> GlobFault {
        GlobFault::Memory
    }
}

impl<T: Drop> From<AllocFailed<T>> for GlobFault {
    ghost from_gives = { λ _ e. e ≡ Memory };

    fn from(_: AllocFailed<T>) -> GlobFault {
        GlobFault::Memory
    }
}
