//! One run of the program.
ghost use Rattle.std.specs.Prelude.{◌≡◌, ◌≢◌, ◌≤◌, ◌⊎◌, [], IfErr, IsTrue, option_map};
ghost use Rattle.std.specs.Io.KnownBytes.{Appends};
ghost use Rattle.gufi_io.specs.Causes.{Rose};
ghost use Rattle.gufi_io.specs.Kept.{Keeps};
ghost use Rattle.gufi_words.specs.WordTexts.{texts};
ghost use Rattle.gufi_words.specs.CommandWords.{is_delimited};
ghost use Rattle.gufi_top.specs.Verdict.{is_one_shot, are_one_shot, files_ahead, files_ahead_of, MayRefuse, MayRefuseWords, command_in, command_over};
ghost use Rattle.gufi_top.specs.Ends.{IsVerdictStatus, Ended, WriteFaulted, BrokenOff, Anywhere, FailedBehind, TextEnds, read_fault_note, memory_note};
ghost use Rattle.gufi_top.specs.Endings.{HasRun, RefusalTells, TellsOneOf};
ghost use Rattle.gufi_top.specs.Complete.{Completes};

use crate::command::{answer_command, workers_of};
use crate::ending::{Outcome, halted, tell};
use crate::halt::Output;
use crate::note;
use crate::session::{self, Session};
use crate::words::read_command;
use gufi_io::{Gate, Shelf, Sink, write_whole};
use gufi_walk::Walkers;
use gufi_words::Command;
use std::alloc::Global;
use std::sync::Wait;
use std::thread::Threads;

/// How many replies a lane keeps at most; the words name no more.
const MAX_CACHE: u32 = 256;

// Writes the text, and then its note.
fn write_output<K: Sink>(output: &Output, out: &mut K, notes: &mut K) -> u8
    ensures status { (result ≡ 0) ⊎ (result ≡ 4) }
    ensures written { result ≡ 0 → Appends (K.taken out.old) (K.taken out.new) output.now.out.items × Appends (K.taken notes.old) (K.taken notes.new) output.now.notes.items }
    ensures fault { result ≡ 4 → TextEnds K.Sink out.old out.new notes.old notes.new output.now.out.items output.now.notes.items }
{
    if write_whole(out, &output.out).is_err() {
        tell(notes, note::write_fault());
        return 4;
    }
    if write_whole(notes, &output.notes).is_err() {
        return 4;
    }
    0
}

// Makes the whole text of a command, and writes it.
fn run_one_shot<R: Threads + Wait + Sync, F: Shelf, K: Sink, G: Gate + Sync>(
    rt: &R,
    alloc: Global,
    command: &Command,
    shelf: &mut F,
    out: &mut K,
    notes: &mut K,
    gate: &G,
) -> Outcome
    requires one_shot { IsTrue (is_one_shot command.now) }
    requires delimited { IsTrue (is_delimited command.now) }
    ensures run { HasRun F.Shelf K.Sink (files_ahead command.now) (option_map (command_over command.now) (F.files shelf.old)) result.status result.numbers.items shelf.old shelf.new out.old out.new notes.old notes.new }
    ensures words { result.status ≡ 2 → TellsOneOf K.Sink (MayRefuse command.now) notes.old notes.new }
    ensures silent { result.status ≢ 0 → result.status ≢ 4 → out.new ≡ out.old }
{
    let walkers = Walkers::of(rt, gate, workers_of(command));
    match answer_command(&walkers, alloc, command, shelf) {
        Ok(output) => {
            let status = write_output(&output, out, notes);
            drop(output);
            let numbers = Vec::new(alloc);
            Outcome { status, numbers }
        }
        Err(halt) => halted(alloc, halt, notes),
    }
}

// Does all that a command asks, which words spell: a session writes as it goes.
fn run_command<R: Threads + Wait + Sync, F: Shelf, K: Sink, G: Gate + Sync>(
    rt: &R,
    alloc: Global,
    command: &Command,
    shelf: &mut F,
    out: &mut K,
    notes: &mut K,
    gate: &G,
) -> Outcome
    requires { IsTrue (is_delimited command.now) }
    ensures run { HasRun F.Shelf K.Sink (files_ahead command.now) (option_map (command_over command.now) (F.files shelf.old)) result.status result.numbers.items shelf.old shelf.new out.old out.new notes.old notes.new }
    ensures words { result.status ≡ 2 → TellsOneOf K.Sink (MayRefuse command.now) notes.old notes.new }
    ensures silent { IsTrue (is_one_shot command.now) → result.status ≢ 0 → result.status ≢ 4 → out.new ≡ out.old }
{
    match command {
        Command::Session {
            passwd,
            group,
            delim,
            workers,
            now,
            cache,
            script,
        } => {
            let session = Session {
                passwd,
                group,
                delim: *delim,
                workers: *workers,
                moment: *now,
                cache: (*cache).min(MAX_CACHE),
                script,
            };
            session::run(rt, alloc, &session, shelf, out, notes, gate)
        }
        _ => run_one_shot(rt, alloc, command, shelf, out, notes, gate),
    }
}

/// Does all that the words ask: reads the files, and writes the text or the refusal's note.
///
/// The words are those after the program's name. The text goes to `out`; a refusal's note, ended by a
/// newline, to `notes`. A search is answered by workers in threads of `rt`, and a session runs its lanes and its publishing
/// commands in further threads; `gate` is told of each of these, of each task of a worker and of each store that it scans, before
/// it begins. A session writes phase by phase; each other command writes once its whole text is made. Where the lanes of a
/// session keep replies, its note of status 0 tells how many of its asks were answered by these. The exit status is 0
/// where the whole text was written, 1 where the start can't be listed, 2 for words that are no command, 3 for a fault of
/// reading, 4 for one of writing, 5 for a damaged file, 6 for a limit that is passed, 7 for want of memory and 8 for a file
/// that isn't there.
pub fn gufi_run<R: Threads + Wait + Sync, F: Shelf, K: Sink, G: Gate + Sync>(
    rt: &R,
    alloc: Global,
    words: &[String],
    shelf: &mut F,
    out: &mut K,
    notes: &mut K,
    gate: &G,
) -> Outcome
    // Without a fault or want of memory, the status, the text and the note are those of the words over the files.
    ensures ended { IsVerdictStatus result.status → Ended K.Sink (F.files shelf.old) (texts words.now) result out.old out.new notes.old notes.new }

    // Where the words are a command that the files let it answer, and no count of faults rose: status 0 with the whole text, or want of memory.
    ensures complete { Completes F.Shelf K.Sink (texts words.now) result.status result.numbers.items shelf.old shelf.new out.old out.new notes.old notes.new }

    // Words that are no command are refused with status 2 and their note, whatever the shelf, and no file is asked for.
    ensures refused { IfErr (command_in (texts words.now)) (λ why. RefusalTells K.Sink why result.status notes.old notes.new
        × (result.numbers.items ≡ []) × (shelf.new ≡ shelf.old) × (out.new ≡ out.old)) }

    // Status 2 comes only for these, or for a USER, a query or an expression that with some users is refused, with the note of that, whatever the shelf.
    ensures words { result.status ≡ 2 → TellsOneOf K.Sink (MayRefuseWords (texts words.now)) notes.old notes.new }

    // No other status is known.
    ensures known { result.status ≤ 8 }

    // But for a session, a run writes nothing unless it has its whole text, whatever the shelf.
    ensures silent { IsTrue (are_one_shot (texts words.now)) → result.status ≢ 0 → result.status ≢ 4 → out.new ≡ out.old }

    // The shelf's files stay what they were, and no count of its fell.
    ensures kept { Keeps F.Shelf shelf.old shelf.new }

    // A missing file is answered only where the shelf lacked one.
    ensures absent { result.status ≡ 8 → Rose (F.absents shelf.old) (F.absents shelf.new) }

    // A fault of reading is answered only where the shelf failed. A session has then answered exactly the phases before its files failed.
    ensures read_fault { result.status ≡ 3 → Rose (F.faults shelf.old) (F.faults shelf.new)
        × BrokenOff K.Sink (FailedBehind F.Shelf (files_ahead_of (texts words.now)) shelf.old shelf.new) (F.files shelf.old) (texts words.now) result out.old out.new notes.old notes.new read_fault_note }

    // A fault of writing is answered only where a sink failed.
    ensures write_fault { result.status ≡ 4 → WriteFaulted K.Sink (F.files shelf.old) (texts words.now) result out.old out.new notes.old notes.new }

    // Want of memory is the one free answer.
    ensures memory { result.status ≡ 7 → BrokenOff K.Sink Anywhere (F.files shelf.old) (texts words.now) result out.old out.new notes.old notes.new memory_note }
{
    match read_command(alloc, words) {
        Ok(command) => {
            let outcome = run_command(rt, alloc, &command, shelf, out, notes, gate);
            drop(command);
            outcome
        }
        Err(halt) => halted(alloc, halt, notes),
    }
}
