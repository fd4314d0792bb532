//! The users and groups of passwd and group files, and who a USER word names.
//!
//! Contracts see a passwd file as its rows in file order, a group file likewise, and `Users` as both tables.
//! It stands on names and access rules; the words of `find`, listings and sessions stand on it.
#![tactic(auto)]

mod askers;
mod fault;
mod group;
mod line;
mod members;
mod passwd;
mod place;
mod row;
mod table;
mod users;
mod word;

pub use askers::Askers;
pub use fault::{UserError, UserKind};
pub use group::{Groups, read_group};
pub use passwd::{Passwd, read_passwd};
pub use users::Users;
