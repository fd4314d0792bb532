//! What is wrong with a line of a file of cases.
use std::alloc::{AllocError, AllocFailed};
use thiserror::Error;

#[derive(Clone, Copy, Debug, Drop, Error)]
pub(crate) enum Fault {
    #[error("no such command")]
    Command,
    #[error("no number")]
    Number,
    #[error("a byte is written wrongly")]
    Escape,
    #[error("an open quote")]
    Quote,
    #[error("no such file")]
    NoFile,
    #[error("no such byte")]
    NoByte,
    #[error("a name stands twice")]
    DoubleName,
    #[error("want of memory")]
    Memory,
}

impl From<AllocError> for Fault {
    fn from(_: AllocError) -> Fault {
        Fault::Memory
    }
}

impl<T: Drop> From<AllocFailed<T>> for Fault {
    fn from(_: AllocFailed<T>) -> Fault {
        Fault::Memory
    }
}
