//! One run of the program: a page, or what `gufi_top` makes of the words.
//!
//! Contracts see a run as a page shown, or as what `gufi_top` promises of the words. Where an option tells that a wrapper put in words,
//! its note counts the others alone; where one asks for it, an explanation stands behind the note.
//! It stands on `gufi_pages` and `gufi_top`; the program hands it the system's files and streams.
#![tactic(auto)]

mod channel;
mod explaining;
mod inserted;
mod program;
mod watched;

pub use channel::{Channel, HeldText};
pub use inserted::{Inserted, numbers_are_told_as_counted};
pub use program::{run, without_words};
pub use watched::{Failing, Watched, WatchedShelf};
