//! Groups of rows: how many rows have one number, and the sums and bounds of their sizes and times.
//!
//! Contracts see what is asked as a key, items and a SELECT, and groups as the list of what each number's rows come to, ascending.
//! It sees each record as a file's, so that all sizes count.
//! It stands on SELECTs and on counts of rows by a number; the top call stands on it.
#![tactic(auto)]

mod agg;
mod fault;
mod groups;
mod head;
mod placed;
mod reading;
mod tail;
mod text;
mod token;

pub use agg::{Agg, AggKey, Item};
pub use fault::{AggError, AggKind};
pub use groups::{Group, Groups, Letter};
pub use reading::read_agg;
pub use text::agg_text;
