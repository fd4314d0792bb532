//! Tests of what is read and written as text below the questions: names, paths, numbers, files, users and scripts.
//!
//! They stand beside the crates that they call, since a crate with tests is proved twice; and apart from the tests of other
//! texts, since a test is proved the sooner the fewer libraries its crate loads.
#![tactic(auto)]

#[cfg(test)]
mod base_tests;
#[cfg(test)]
mod io_tests;
#[cfg(test)]
mod script_tests;
#[cfg(test)]
mod users_tests;
