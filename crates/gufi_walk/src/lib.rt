//! Queries over one snapshot: what a principal gets who walks from a start, or why there is nothing.
//!
//! The answer is a filter of all rows of the tree as they are shown, in path order; refusals are those of resolving the start. One thread
//! gives it, counting its steps, or as many walkers as are asked for, who share the directories as tasks.
//! A task is a directory of the front; where few are at and below it, it takes them all. What is shown of a row is the walk's rule,
//! not the question's.
//! It stands on snapshots and on the pool that runs the tasks; the calls of the program stand on it.
#![tactic(auto)]

mod chunk;
mod descent;
mod laws;
mod piece;
mod refusal;
mod reply;
mod shown;
mod start;
mod task;
mod total;
mod walkers;

pub use descent::{add_rows_below, answer_alone};
pub use laws::{answers_are_private, folds_hold_the_answer, walks_are_private};
pub use refusal::Refusal;
pub use reply::{
    PathLines, answer_lines, answer_list, answer_paths, answer_rows, answer_sum, put_refusal,
};
pub use shown::Shown;
pub use start::found_start;
pub use total::{answer_total, total_from};
pub use walkers::{Walkers, answer};
