//! What the rows at and below directories take up: a line for each directory that a principal lists near a start.
//!
//! Contracts see the lines as a text, made of the rows that the principal lists and of which a question chooses some.
//! Each row is looked at once, and none is kept: of a directory as deep as lines go, all rows at and below it are summed as the walk
//! comes to them, and those above have the sums of their subdirectories.
//! It stands on snapshots and on walks; asks of one snapshot stand on it.
#![tactic(auto)]

mod lines;
mod near;
mod usage;

pub use lines::usage_text;
pub use usage::Usage;
