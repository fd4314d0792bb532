//! Sessions over snapshots: traces that are published and rolled up, and searches of them, phase by phase.
//!
//! Contracts see a session as the run of its plan over the files: the publications, the numbers and the text. It stands on plans,
//! phases, snapshots and the walk; the top call stands on it.
#![tactic(auto)]

ghost use Rattle.gufi_session.specs.Session.{RepliesArePrivate};

mod loading;
mod publishing;
mod reply;
mod run;

pub use run::run_session;

/// To one who can't tell two publications apart by what may be listed, each search has one reply from both.
pub fn replies_are_private()
    ensures { RepliesArePrivate }
{}
