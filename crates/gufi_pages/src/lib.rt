//! The pages of help, version, manual and completions, which of them words ask for, and how one is shown.
//!
//! Contracts see the pages as their texts. All are made of one table of commands, as are the rules by which refusals are explained.
//! It stands on the words of commands and on what explains refusals, so that a change of a page proves nothing of the index anew; the
//! program's one run stands on it.
#![tactic(auto)]

mod commands;
mod pages;
mod rules;
mod shells;
mod shown;

pub use pages::{CommandPage, Pages, own_pages, page};
pub use shown::show;
