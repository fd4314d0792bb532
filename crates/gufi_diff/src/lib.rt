//! What changed from one list of rows to another, a line a path.
//!
//! Contracts see its text as bytes: `diff_lines` says which, over both lists.
//! It stands on `gufi_rows`, whose lists are read in path order where they stand; the top call stands on it.
#![tactic(auto)]

mod diff;
mod records;

pub use diff::diff_text;
