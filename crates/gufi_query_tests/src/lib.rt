//! Tests of questions: what no run of the program shows of them, what they ask of sums, and the plans of sessions that ask them.
//!
//! They stand beside the crates that they call, since a crate with tests is proved twice.
#![tactic(auto)]

#[cfg(test)]
mod agg_tests;
#[cfg(test)]
mod asking;
#[cfg(test)]
mod glob_tests;
#[cfg(test)]
mod hint_tests;
#[cfg(test)]
mod plan_tests;
#[cfg(test)]
mod prune_tests;
#[cfg(test)]
mod select_tests;
