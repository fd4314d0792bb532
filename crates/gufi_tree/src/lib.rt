//! The tree of an index: directories in path order, each with its record and its entries.
//!
//! Contracts see a tree as the list of its directories in path order; a `DirId` is a place in it.
//! What is packed has no `&Path` or `&Rec` to lend: `PathRef`, `RecRef`, `EntriesRef` and `DirRef` are seen as what they stand for.
//! Entries are sorted while at hand and copied when their directory is closed, so no row stands in a bundle that no directory has.
//! It stands on `gufi_base` and `gufi_access`; the trace reader and all queries stand on it.
#![tactic(auto)]

mod borrowed;
mod bundle;
mod closed;
mod dirs;
mod fault;
mod gather;
mod graft;
mod heads;
mod likely;
mod lines;
mod link;
mod names;
mod ordered;
mod outside;
mod packing;
mod pending;
mod place;
mod range;
mod resolve;
mod rows;
mod search;
mod shape;
mod sort;
mod stanzas;
mod subtree;
mod too_long;
mod tree;

pub use borrowed::{DirRef, EntriesRef, EntryRef};
pub use dirs::Dirs;
pub use fault::TreeFault;
pub use lines::{build, build_stanzas};
pub use ordered::tree_of_directories;
pub use packing::Packing;
pub use range::DirRange;
pub use resolve::Resolved;
pub use search::has_entry;
pub use stanzas::Stanzas;
pub use tree::{DirId, Entry, Stored, Tree};
