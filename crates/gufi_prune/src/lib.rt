//! Questions that sums can bound: where the sum of some rows leaves no room for a match, none of them is looked at.
//!
//! Contracts see what passes over rows as the hints of its question, and how deep a row that meets it may lie. It stands on
//! formulas and sums; the calls that search an index stand on it.
#![tactic(auto)]

mod class;
mod leaf;
mod pruner;
mod questions;
mod sides;

pub use pruner::Pruner;
pub use questions::{find_pruner, select_pruner};
