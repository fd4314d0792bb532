//! What `info` tells of an index, a line a figure.
//!
//! Contracts see its text as bytes: `info_text` says which, over the index's tree, the limit of its roll-up and the length of its file.
//! `Census` keeps what is found in one pass over the rows.
//! It stands on `gufi_roll` and on the version that `gufi_image` gives a tree; the top call stands on it.
#![tactic(auto)]

mod census;
mod text;

pub use text::info_text;
