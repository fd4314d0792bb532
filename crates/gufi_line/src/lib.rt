//! The line of a trace: a directory or entry, read behind the lines before it or refused by its first fault, and written.
//!
//! Contracts see a reader's progress as its root and the lines that it has, and parts of a text as the list of them.
//! It stands on `gufi_base`, `gufi_acl` and `gufi_tree`; whole traces stand on it.
#![tactic(auto)]

mod acls;
mod attributes;
mod content;
mod digits;
mod fault;
mod fields;
mod lines;
mod quick;
mod row;
mod text;

pub use digits::DigitPairs;
pub use fault::{TraceError, TraceFault, TraceKind};
pub use fields::Parts;
pub use lines::{Lines, Progress};
pub use row::{put_directory, put_entry, put_record};
