//! How a run ends: its outcome, and the note of why it writes nothing.
ghost use Rattle.std.specs.Prelude.{◌≡◌, []};
ghost use Rattle.gufi_top.specs.Ends.{TakesNote};
ghost use Rattle.gufi_top.specs.Endings.{HaltTells};

use crate::halt::Halt;
use crate::note;
use gufi_io::{Sink, write_whole};
use std::alloc::Global;

/// How a run ended: its exit status, and for a session the number that each ask's reply bears.
#[derive(Debug, Drop)]
pub struct Outcome {
    pub status: u8,
    pub numbers: Vec<u64>,
}

/// Writes a note.
pub(crate) fn tell<K: Sink>(notes: &mut K, note: &[u8])
    ensures { TakesNote K.Sink notes.old notes.new note.now }
{
    // Where the note fails, only the status is left to tell.
    let _ = write_whole(notes, note);
}

// Writes the note of a halt, and gives its status.
fn tell_halt<K: Sink>(halt: Halt, notes: &mut K) -> u8
    ensures { HaltTells K.Sink halt result notes.old notes.new }
{
    match halt {
        Halt::Refused { status, note } => {
            tell(notes, &note);
            status
        }
        Halt::ReadFault => {
            tell(notes, note::read_fault());
            3
        }
        Halt::Memory => {
            tell(notes, note::memory());
            7
        }
    }
}

/// The outcome of a run that writes nothing but the note of its halt.
pub(crate) fn halted<K: Sink>(alloc: Global, halt: Halt, notes: &mut K) -> Outcome
    ensures told { HaltTells K.Sink halt result.status notes.old notes.new }
    ensures numbers { result.numbers.items ≡ [] }
{
    let status = tell_halt(halt, notes);
    let numbers = Vec::new(alloc);
    Outcome { status, numbers }
}
