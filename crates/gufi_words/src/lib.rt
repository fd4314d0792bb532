//! The words of every command of the program, read by one grammar.
//!
//! Contracts see a command as what it is made of: texts, numbers, a path; and a word that can't be taken as its number.
//! It stands on `gufi_base`; the top call stands on it.
#![tactic(auto)]

mod command;
mod form;
mod name;
mod option;
mod positional;
mod value;
mod word;

pub use command::{Command, Common, ReportWord};
pub use form::read_words;
pub use word::WordError;
