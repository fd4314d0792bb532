//! Which directories are rolled up under a limit: all below them is covered, and their rows are few enough.
//!
//! Contracts see the flags of a tree as a list, one for each directory in path order.
//! Answers for pairs with an access control list are kept, eight for each of 64 guards.
//! It stands on the tree and the access rules; snapshots, which keep the flags, stand on it.
#![tactic(auto)]

mod below;
mod flags;
mod known;
mod memo;
mod report;

pub use flags::roll;
pub use known::roll_from;
pub use report::{RollReport, roll_report};
