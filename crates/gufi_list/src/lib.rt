//! What is printed of a directory's record, of sums and of listed rows.
//!
//! Contracts see a printed text as its bytes: `stat_text`, `total_text`, `mode_text` and `ls_text` say which.
//! It stands on `gufi_base`, `gufi_rows`, `gufi_sums` and `gufi_users`; the calls that print stand on it.
#![tactic(auto)]

mod listing;
mod mode;
mod put;
mod record;
mod total;

pub use listing::{LsLine, OneBelow, ls_text, put_group, put_owner};
pub use mode::mode_text;
pub use record::stat_text;
pub use total::total_text;
