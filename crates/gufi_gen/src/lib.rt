//! Generated traces: the trace of a tree of so many directories, the same each time, to try an index on.
//!
//! Contracts see a trace as its bytes: `gen_text` says which.
//! It stands on `gufi_base` and `gufi_trace`, and its laws on `gufi_tree` too; the call that prints a generated trace
//! stands on it.
#![tactic(auto)]

mod laws;
mod made;
mod trace;

pub use laws::generated_traces_are_read;
pub use trace::gen_trace;
