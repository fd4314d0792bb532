//! Asks of one snapshot: what a command asks of the rows that a principal lists, and the text that it writes of them.
//!
//! Contracts see a call as the reply to an ask over the snapshot's tree: a text, or the refusal of the start.
//! It stands on walks and on what is printed of rows; the top call stands on it.
#![tactic(auto)]

mod groups;
mod laws;
mod paths;
mod prefixed;
mod reports;
mod rows;
mod snapshots;
mod sums;
mod usages;

pub use groups::groups_text;
pub use laws::asks_are_private;
pub use paths::{find_text, walk_text};
pub use reports::report_text;
pub use rows::{listing_text, query_text};
pub use snapshots::{ready_to_find, ready_to_select};
pub use sums::{record_text, total_for};
pub use usages::usages_text;
