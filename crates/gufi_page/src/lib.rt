//! Pages: rows packed in one vector of records, one text and one vector of stems.
//!
//! Contracts see a page as the list of its rows, and a cursor as those of its rows that are still to come. Rows are given in
//! borrowed parts: nothing is copied.
//! It stands on `gufi_base`.
#![tactic(auto)]

mod cursor;
mod page;
mod text;

pub use cursor::Cursor;
pub use page::{Page, pack};
