//! Plans of sessions: the acts of a script, whose users and queries are read, phase by phase.
//!
//! Contracts see a plan as the list of its phases. It stands on scripts, users, the languages of queries
//! The delimiter of traces stands in each planned `publish` and `refresh`. No plan depends on how many replies are kept.
//! and the bytes of asks; sessions stand on it.
#![tactic(auto)]

mod act;
mod ask;
mod fault;
mod planning;
mod principals;
mod reading;
mod search;

pub use act::{PlannedAct, SessionPlan};
pub use planning::plan_session;
pub use reading::Setup;
pub use search::{Query, Search, SharedSearch};
