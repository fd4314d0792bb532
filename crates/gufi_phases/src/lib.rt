//! Phases: publishing commands in one thread, beside lanes of asks that each pin once; and sessions, in which phases are loaded
//! from a shelf, carried out, and written to a sink, one before the next.
//!
//! Each lane may keep its last replies, and answers by them where an ask comes again at the same publication.
//!
//! Contracts see a phase as its acts in order, and a plan as what its phases come to over the files of the shelf. Commands and
//! questions say by traits what they publish and what is replied, and a call that is handed in makes the replies, so nothing here
//! knows a snapshot; what a visitor may see is a number, and the text is told by the numbers that the pins gave.
//! It stands on `gufi_hub`, `gufi_cache` and `gufi_io`; the sessions of scripts stand on it.
#![tactic(auto)]

mod act;
mod answer;
mod keeping;
mod lane;
mod load;
mod phase;
mod publish;
mod replies;
mod session;
mod visitors;
mod written;

pub use act::{Act, Command, Made, Wanted};
pub use load::{Load, LoadFault, Stop};
pub use session::{End, Ended, run_session};
