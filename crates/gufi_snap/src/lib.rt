//! Snapshots: a tree, whose directories a scan borrows as stores, the sums of their rows, and what of it is rolled up.
//!
//! Contracts see a snapshot as its tree and its limit; what else it keeps follows from these.
//! `refresh` replaces a directory and all below it by another tree, and keeps what is known of all else.
//! It is judged before anything is copied: not there, too many, too deep; by lengths and kept sums, and by entries only where a path
//! is so long that one could pass a limit.
//! It stands on the tree, stores, sums and roll-up; queries stand on it.
#![tactic(auto)]

mod contents;
mod flags;
mod refresh;
mod sizes;
mod snapshot;
mod stores;
mod sums;

pub use refresh::RefreshFault;
pub use snapshot::Snapshot;
