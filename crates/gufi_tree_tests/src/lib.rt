//! Tests of trees and what is made of them: lists of rows, pages, stores, roll-ups, snapshots, reports and walks.
//!
//! They stand beside the crates that they call, since a crate with tests is proved twice; and apart from the tests of texts and
//! images, since a test is proved the sooner the fewer libraries its crate loads.
#![tactic(auto)]

#[cfg(test)]
mod hidden_tests;
#[cfg(test)]
mod lines;
#[cfg(test)]
mod page_tests;
#[cfg(test)]
mod roll_tests;
#[cfg(test)]
mod rows_tests;
#[cfg(test)]
mod snap_tests;
#[cfg(test)]
mod stats_tests;
#[cfg(test)]
mod store_tests;
#[cfg(test)]
mod tree_tests;
#[cfg(test)]
mod walk_tests;
#[cfg(test)]
mod walkers_tests;
