//! The outside: shelves of files, sinks of bytes, and a gate that is told what begins.
//!
//! Contracts see a shelf as the bytes that each name holds and the bytes left of the file in hand, and a sink as the
//! bytes taken, each where it tells them. Both count their faults: a failure comes only where a count rose. A shelf counts
//! the files that were to be opened, so that it is told at which of them it failed.
//! In memory they tell everything and fail where they are told to; the real ones tell nothing.
//! Counters stay at 2^64 - 1, and a call without a number fails for no list.
//! It stands on no crate of the index; walkers, sessions and the top call stand on it.
#![tactic(auto)]

mod gate;
mod memory;
mod real;
mod shelf;
mod sink;
mod whole;

pub use gate::{Gate, GateKind, NoGate};
pub use memory::{MemShelf, MemSink, names_differ};
pub use real::{FileShelf, StdSink};
pub use shelf::{Failed, OpenFault, Shelf};
pub use sink::Sink;
pub use whole::{
    ReadError, RestError, TakeBytes, WriteFault, piece_buffer, read_all, read_rest, write_whole,
};
