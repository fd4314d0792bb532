//! Patterns of file names (POSIX.1-2017 XCU 2.13, in the C locale by bytes).
//!
//! Contracts see a pattern as the list of its parts, and a match as a cut of the text into as many pieces.
//! It stands on `gufi_base`; `find` stands on it.
#![tactic(auto)]

mod bracket;
mod byte_set;
mod fault;
mod glob;
mod joined;
mod laws;
mod matcher;
mod members;
mod part;
mod reader;

pub use fault::GlobFault;
pub use glob::Glob;
pub use laws::matches_are_cuts;
