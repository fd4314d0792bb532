//! Publications, pins and work stealing as one machine over events: no thread, no lock, no handle.
//!
//! `step` says what each event changes and when it is legal, over states whose lists contracts see as lists.
//! A run answers for every list of events; the laws say what holds in every state that one reaches.
//! A run keeps its state in private types that are changed in place; the public lists are made once, at the end.
//! It stands on `gufi_base`. No thread runs it: the pool's proof applies its law of balanced jobs.
#![tactic(auto)]

mod event;
mod job;
mod laws;
mod machine;
mod run;
mod state;
mod worker;

pub use event::Event;
pub use laws::{ended_jobs_took_owed, runs_hold, steps_keep_balance};
pub use run::{CoreFault, run_events};
pub use state::{Core, JobState, Shape, WorkerState};
