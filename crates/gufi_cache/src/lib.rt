//! Answers that are kept: the most recent texts, by what was asked of which publication.
//!
//! Contracts see a cache as the list of its pairs of a key and a text, the most recent first, and how many it may keep.
//! It stands on `gufi_base` and `gufi_access`.
#![tactic(auto)]

mod ask;
mod cache;
mod key;
mod principal;

pub use ask::ask_bytes;
pub use cache::Cache;
pub use key::{CacheKey, cache_key};
pub use principal::SharedPrincipal;

#[cfg(test)]
mod tests;
