//! The trace: a line a directory or entry, read into lines or refused by its least fault, and written.
//!
//! Contracts see a reader as what it has read of the whole stream of bytes, however that was cut.
//! It stands on `gufi_line`, which reads and writes each line, and on `gufi_tree`; the top call and sessions stand on it.
#![tactic(auto)]

mod laws;
mod reader;
mod text;
mod writer;

pub use gufi_line::{TraceError, TraceFault, TraceKind, put_record};
pub use laws::traces_mean_sound_trees;
pub use reader::{TraceReader, read_pieces, read_trace};
pub use text::put_tree_fault;
pub use writer::{WriteTraceFault, write_trace, written_traces_read_back};
