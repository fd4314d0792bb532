//! Reports over rows: how many there are by depth, owner or group, and the directories without one below them.
//!
//! Contracts see a report as its bytes: `stats_text` says which. `Counts` keeps the sums of rows as they come, and no row;
//! `NumberSums` keeps such sums of records for others that group rows.
//! The type alone tells by which number `Counts` counts, since a collector is made without an argument.
//! It stands on `gufi_base`, `gufi_sums`, and on `gufi_list` for names of owners and groups; groups of rows and the call that
//! prints a report stand on it.
#![tactic(auto)]

mod by_key;
mod counts;
mod label;
mod leaves;
mod named;
mod number;
mod report;
mod sums;

pub use counts::Counts;
pub use leaves::Directories;
pub use named::{put_gid, put_uid};
pub use number::{Depth, Gid, RowNumber, Uid};
pub use report::{Report, gids_text, leaves_text, levels_text, stats_text, uids_text};
pub use sums::NumberSums;
