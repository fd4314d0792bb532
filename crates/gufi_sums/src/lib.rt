//! Sums of rows: how many of each kind, their bytes, and the least and greatest of their values.
//!
//! Contracts see a `Summary` as its fields; `total` is the sum of a list of rows, and sums join in any order and grouping.
//! `SharedSums` keeps two sums a directory, in blocks that such lists share.
//! A `Skip` tells by a sum alone that none of its rows can meet a query, and how deep a walk need go.
//! `Yield` for `Summary` hands over the laws of joining, since code names only its own crate's `specs`.
//! It stands on `gufi_base`; walks that count and stores that keep sums stand on it.
#![tactic(auto)]

mod blocks;
mod counts;
mod laws;
mod shared;
mod skip;
mod summary;

pub use counts::put_counts;
pub use laws::sums_join;
pub use shared::SharedSums;
pub use skip::{NoDeeper, NoSkip, Skip};
pub use summary::Summary;
