//! Tests of how an index is read and written: traces, images, generated traces and listings; and of access rules and sums.
//!
//! They stand beside the crates that they call, since a crate with tests is proved twice; and apart from the tests of trees,
//! since a test is proved the sooner the fewer libraries its crate loads.
#![tactic(auto)]

#[cfg(test)]
mod access_tests;
#[cfg(test)]
mod gen_tests;
#[cfg(test)]
mod image_tests;
#[cfg(test)]
mod list_tests;
#[cfg(test)]
mod sums_tests;
#[cfg(test)]
mod trace_tests;
