//! Formulas of tests with "and", "or" and "not", which `find` and SELECT share.
//!
//! Contracts see a formula as the tree of its tests, and what stands open while one is read as levels of such trees.
//! It stands on `gufi_base`; the crates of questions stand on it, and say what is true of a test.
#![tactic(auto)]

mod formula;
mod hinted;
mod level;
mod open_levels;
mod range;
mod step;
mod valuation;

pub use formula::Formula;
pub use hinted::Hinted;
pub use open_levels::OpenLevels;
pub use range::{gids_in, sizes_in, times_in, uids_in};
pub use valuation::Valuation;
