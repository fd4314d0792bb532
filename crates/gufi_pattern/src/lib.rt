//! Patterns of REGEXP, in the syntax of the `regex` crate over bytes.
//!
//! Contracts see a pattern, and a search for it, as the pattern's text. It stands on `gufi_base` and the `regex` crate;
//! SELECT stands on it.
#![tactic(auto)]

mod pattern;

pub use pattern::{Pattern, PatternFault, Search};
