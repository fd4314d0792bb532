//! Who may read and search a directory (POSIX.1-2017 XBD 4.5; POSIX.1e, draft 17, where there is an access control list), and which directory covers which.
//!
//! Contracts see a principal as a uid and a list of groups, and a guard as the rights that it states.
//! Access control lists are compared as rules: nobody is tried, and it takes no memory and no table.
//! It stands on no crate of the index; trees, queries and sessions stand on it.
#![tactic(auto)]

mod acl;
mod class;
mod cover;
mod granting;
mod groups;
mod index;
mod listing;

pub use acl::{Entries, Entry, MASK, NAMED_GROUP, NAMED_USER, OTHERS, OWNER, OWNING_GROUP, acl_ok};
pub use class::{Class, Guard, Principal, class_of, granted, lists};
pub use cover::covers;
pub use groups::GroupList;
