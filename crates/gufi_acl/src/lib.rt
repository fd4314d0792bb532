//! Access control lists in text: POSIX.1e's short and long forms of an entry, between commas, behind a mark.
//!
//! Contracts see a list as its bytes, six an entry.
//! It stands on `gufi_base` and `gufi_access`; traces stand on it.
#![tactic(auto)]

ghost use Rattle.std.specs.Prelude.{◌≡◌};
ghost use Rattle.gufi_acl.specs.declared.AclFault.TheVariants.{Memory as OutOfMemory};

mod check;
mod entry;
mod laws;
mod reader;
mod writer;

pub use laws::{acls_read_are_sound, acls_read_back, acls_write_plain_text};
pub use reader::read_acl;
use std::alloc::{AllocError, AllocFailed};
pub use writer::put_acl;

/// Why a text isn't read.
#[derive(Clone, Copy, Debug, PartialEq, Eq)]
pub enum AclFault {
    /// An entry isn't of its form, two have equal tag and ID, or one is missing that must be there.
    BadAcl,
    /// None of these, and there are more than 32 named entries.
    TooManyEntries,
    /// Memory was wanted, and there was none.
    Memory,
}

impl From<AllocError> for AclFault {
    ghost from_gives = { λ _ e. e ≡ OutOfMemory };

    fn from(_: AllocError) -> AclFault {
        AclFault::Memory
    }
}

impl<T: Drop> From<AllocFailed<T>> for AclFault {
    ghost from_gives = { λ _ e. e ≡ OutOfMemory };

    fn from(_: AllocFailed<T>) -> AclFault {
        AclFault::Memory
    }
}
