//! The top call: all that the program does, from the words and files to the bytes that go out.
//!
//! Contracts see a run as its verdict: the first refusal in the order of words, files and start, or the text, or the run of a
//! session, phase by phase.
//! It stands on every crate of the index but the program itself.
#![tactic(auto)]

mod command;
mod diff;
mod ending;
mod generate;
mod halt;
mod index;
mod index2trace;
mod info;
mod laws;
mod note;
mod question;
mod reading;
mod refresh;
mod rollup;
mod run;
mod search;
mod session;
mod start;
mod users;
mod walk;
mod words;

pub use ending::Outcome;
pub use laws::{
    answerable_commands_are_answered, diff_writes_the_changes, diffs_are_private,
    find_writes_the_listed_rows, find_writes_the_listed_rows_behind_its_prefix,
    gen_is_never_refused, images_come_back_from_traces, indexes_come_back_from_traces,
    refresh_writes_the_image_of_its_tree, traces_come_back_from_images,
    walk_writes_the_listed_rows,
};
pub use run::gufi_run;
