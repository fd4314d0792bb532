//! Runs whose notes are explained.
ghost use Rattle.std.specs.Prelude.{◌≡◌, ◌≢◌, ◌⊎◌, IfOk, IfSome, option_map, string_bytes};
ghost use Rattle.gufi_words.specs.WordTexts.{texts};
ghost use Rattle.gufi_io.specs.Files.{Holds};
ghost use Rattle.gufi_io.specs.Kept.{Keeps};
ghost use Rattle.gufi_explain.specs.Explained.{explained};
ghost use Rattle.gufi_help.specs.Channels.{held_bytes};
ghost use Rattle.gufi_help.specs.Explaining.{wrapped_of, shows_files, Tells, IsTold, IsExplained, HasRunExplained};

use crate::channel::Channel;
use crate::inserted::Inserted;
use crate::program::tell_caller;
use crate::watched::Watched;
use gufi_base::Memory;
use gufi_explain::{Detail, Ended, Rules, Wrapped, explained};
use gufi_io::{Gate, Shelf, Sink, read_all, write_whole};
use gufi_top::{Outcome, gufi_run};
use std::alloc::{AllocError, Global};
use std::io::ErrorKind;
use std::sync::Wait;
use std::thread::Threads;

/// What the options in front of a command tell: which words a wrapper put in, and how much is to be told.
#[derive(Clone, Copy)]
pub(crate) struct Asked {
    pub(crate) inserted: Option<Inserted>,
    pub(crate) detail: Detail,
}

// The bytes that a file of this length at most may have.
const MOST_READ: u32 = 1_073_741_824;

// How the words that a wrapper put in are hidden.
fn wrapped_of(inserted: Option<Inserted>) -> Wrapped
    ensures { result ≡ wrapped_of inserted }
{
    match inserted {
        Some(inserted) => Wrapped {
            first: inserted.first,
            count: inserted.count,
        },
        None => Wrapped { first: 1, count: 0 },
    }
}

// Whether names and contents of files are shown.
fn shows_files(asked: Asked) -> bool
    ensures { result ≡ shows_files asked.inserted asked.detail }
{
    match asked.detail {
        Detail::Alone => false,
        Detail::Files => asked.inserted.is_none(),
    }
}

// Writes the note of a run, which is held, and gives the status that is left by that.
fn tell<K: Sink>(
    alloc: Global,
    inserted: Option<Inserted>,
    ran: u8,
    kept: &Channel<K>,
    notes: &mut Channel<K>,
) -> u8
    ensures { IsTold ⟦<Channel<K> as Sink>⟧ inserted ran kept.now result notes.old notes.new }
{
    if let Some(inserted) = inserted {
        return tell_caller(alloc, inserted, ran, kept, notes);
    }
    match write_whole(notes, kept.held()) {
        Err(_) if ran == 0 => 4,
        _ => ran,
    }
}

// A copy of the name of the file that was opened last.
fn last_name<F: Watched>(alloc: Global, shelf: &F) -> Result<Option<String>, AllocError>
    ensures { IfOk result (λ name. option_map string_bytes name ≡ F.opened shelf.now) }
{
    match shelf.last_opened() {
        Some(name) => {
            let name = String::from_str(alloc, name)?;
            Ok(Some(name))
        }
        None => Ok(None),
    }
}

// What the file of a name holds, read again where that is wanted.
fn read_again<F: Shelf>(
    alloc: Global,
    shelf: &mut F,
    is_wanted: bool,
    name: &Option<String>,
) -> Option<Vec<u8>>
    ensures read { IfSome result (λ bytes. IfSome name.now (λ name. Holds (F.files shelf.old) (string_bytes name) bytes.items)) }
    ensures kept { Keeps F.Shelf shelf.old shelf.new }
{
    match name {
        Some(name) if is_wanted => read_all(alloc, shelf, name.as_str(), MOST_READ).ok(),
        _ => None,
    }
}

fn lent_name(name: &Option<String>) -> Option<&str>
    ensures { option_map (λ name. name.now) result ≡ option_map string_bytes name.now }
{
    match name {
        Some(name) => Some(name.as_str()),
        None => None,
    }
}

fn lent_bytes(bytes: &Option<Vec<u8>>) -> Option<&[u8]>
    ensures { option_map (λ bytes. bytes.now) result ≡ option_map (λ bytes. bytes.items) bytes.now }
{
    match bytes {
        Some(bytes) => Some(bytes.as_slice()),
        None => None,
    }
}

// What is told of a run that ended with this status and this note, by what is known of the file that was opened last.
fn text_of<'t>(
    alloc: Global,
    rules: &Rules,
    asked: Asked,
    words: &'t [String],
    status: u8,
    note: &'t [u8],
    file: Option<&'t str>,
    error: Option<ErrorKind>,
    bytes: Option<&'t [u8]>,
) -> Result<Vec<u8>, Memory>
    ensures { IfOk result (λ text. text.items ≡ explained rules.now (wrapped_of asked.inserted) (shows_files asked.inserted asked.detail) (texts words.now) status note.now
        (option_map (λ file. file.now) file.entry) error (option_map (λ bytes. bytes.now) bytes.entry)) }
{
    let ended = Ended {
        words,
        status,
        note,
        file,
        error,
        bytes,
    };
    let wrapped = wrapped_of(asked.inserted);
    explained(alloc, rules, wrapped, shows_files(asked), &ended)
}

// The same where the shelf tells what is known of the file.
fn told_of<F: Shelf + Watched>(
    alloc: Global,
    rules: &Rules,
    asked: Asked,
    words: &[String],
    status: u8,
    note: &[u8],
    shelf: &mut F,
) -> Result<Vec<u8>, Memory>
    ensures text { IfOk result (λ text. Tells F.Shelf F.Watched rules.now asked.inserted asked.detail (texts words.now) status note.now shelf.old shelf.new text.items) }
    ensures kept { Keeps F.Shelf shelf.old shelf.new }
{
    let error = shelf.failure();
    let name = last_name(alloc, shelf)?;
    let is_wanted = shows_files(asked) && status == 5;
    let again = read_again(alloc, shelf, is_wanted, &name);
    let file = lent_name(&name);
    let bytes = lent_bytes(&again);
    text_of(alloc, rules, asked, words, status, note, file, error, bytes)
}

// Writes what is told of a run behind its note, where that is told with the status of the run.
fn explain<F: Shelf + Watched, K: Sink>(
    alloc: Global,
    rules: &Rules,
    asked: Asked,
    words: &[String],
    ran: u8,
    status: u8,
    kept: &Channel<K>,
    shelf: &mut F,
    notes: &mut Channel<K>,
)
    ensures silent { (ran ≡ 0) ⊎ (status ≢ ran) → (notes.new ≡ notes.old) × (shelf.new ≡ shelf.old) }
    ensures explained { ran ≢ 0 → status ≡ ran → IsExplained ⟦<Channel<K> as Sink>⟧ F.Shelf F.Watched rules.now asked.inserted asked.detail (texts words.now) ran
        (held_bytes kept.now) shelf.old shelf.new notes.old notes.new }
{
    if ran == 0 || status != ran {
        return;
    }
    if let Ok(text) = told_of(alloc, rules, asked, words, ran, kept.held(), shelf) {
        // Where it fails, the note and the status are told all the same.
        let _ = write_whole(notes, &text);
    }
}

/// What `gufi_run` makes of words. Its note is held, told when it has ended, and then explained.
pub(crate) fn run_explained<
    R: Threads + Wait + Sync,
    F: Shelf + Watched,
    K: Sink + Drop,
    G: Gate + Sync,
>(
    rt: &R,
    alloc: Global,
    rules: &Rules,
    asked: Asked,
    words: &[String],
    shelf: &mut F,
    out: &mut Channel<K>,
    notes: &mut Channel<K>,
    gate: &G,
) -> Outcome
    ensures { HasRunExplained ⟦<Channel<K> as Sink>⟧ F.Shelf F.Watched rules.now asked.inserted asked.detail (texts words.now) result
        shelf.old shelf.new out.old out.new notes.old notes.new }
{
    let mut kept = Channel::holding(alloc);
    let outcome = gufi_run(rt, alloc, words, shelf, out, &mut kept, gate);
    let ran = outcome.status;
    let status = tell(alloc, asked.inserted, ran, &kept, notes);
    explain(alloc, rules, asked, words, ran, status, &kept, shelf, notes);
    let numbers = outcome.numbers;
    Outcome { status, numbers }
}
