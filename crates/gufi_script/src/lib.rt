//! Session scripts: acts line by line, or the least faulty line.
//!
//! Escapes are read by `percent_encoding`, once no faulty one is left in the line.
//! Contracts see a script as the list of its acts, each with its line. It stands on `gufi_base`; sessions stand on it.
#![tactic(auto)]

mod act;
mod fault;
mod reader;
mod reading;
mod word;

pub use act::{Act, Form, Script};
pub use fault::{ScriptError, ScriptKind};
pub use reader::read_script;
