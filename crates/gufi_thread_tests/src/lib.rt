//! Tests of what threads share: the machine of events, publications, workers that steal, phases and sessions.
//!
//! They stand beside the crates that they call, since a crate with tests is proved twice.
#![tactic(auto)]

#[cfg(test)]
mod core_tests;
#[cfg(test)]
mod hub_tests;
#[cfg(test)]
mod phases_tests;
#[cfg(test)]
mod pool_tests;
#[cfg(test)]
mod session_tests;
