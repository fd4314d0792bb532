//! What stands behind the note of a refused run: the word or the place, what is expected there, and the nearest name that exists.
//!
//! Contracts see the explanation as a text over the table of rules, the words, the status, the note and what is known of a file.
//! Of a wrapper's words nothing is shown, and of files nothing but where that is asked for.
//! It stands on the words of commands, and on the readers of scripts and of their queries; the program's one run stands on it.
#![tactic(auto)]

mod ask;
mod error;
mod explain;
mod fault;
mod file;
mod nearest;
mod note;
mod refused;
mod role;
mod rules;
mod script;
mod shown;
mod start;
mod table;

pub use explain::{Detail, Ended, detail_words, explained};
pub use rules::{CommandForm, Entry, NamesBehind, Rules};
pub use shown::Wrapped;
pub use table::{
    FIELDS, FILE_KINDS, LIMITS, LINE_KINDS, OFFSET_KINDS, START_KINDS, TEXT_KINDS, VALUES,
    WORD_KINDS,
};
