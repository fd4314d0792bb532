//! Runs of the top call that a gate watches or holds, or whose text the schedule chooses, and nothing else.
//!
//! What each other run gives is told as data, in `gufi_cases`.
#![tactic(auto)]

#[cfg(test)]
mod beside_tests;
#[cfg(test)]
mod find_tests;
#[cfg(test)]
mod lane_tests;
#[cfg(test)]
mod runs;
#[cfg(test)]
mod worker_tests;
