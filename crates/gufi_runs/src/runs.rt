//! Runs over files in memory that give and take a byte at a time.
use gufi_io::{Gate, GateKind, MemShelf, MemSink, names_differ};
use gufi_top::{Outcome, gufi_run};
use std::alloc::{AllocError, Global};
use std::process::Abort;
use std::sync::Wait;
use std::sync::atomic::{AtomicU64, Ordering};
use std::thread::Threads;

// One readable directory.
pub(crate) const A: &[u8] = b"/r|d|1|493|2|101|100|4096|4096|8|10|20|30|\n";

// A with a file.
pub(crate) const X: &[u8] = b"/r|d|1|493|2|101|100|4096|4096|8|10|20|30|
/r/x|f|2|420|1|101|100|0|4096|0|10|20|30|
";

/// The words, the files, and the numbers of the writes that fail.
#[derive(Clone, Copy)]
pub(crate) struct Input<'w, 'f, 'b> {
    pub(crate) words: &'w [&'w str],
    pub(crate) files: &'f [(&'f str, &'f [u8])],
    pub(crate) bad_writes: &'b [u64],
}

/// What a run gives.
#[derive(Drop)]
pub(crate) struct Ran {
    pub(crate) status: u8,
    pub(crate) numbers: Vec<u64>,
    pub(crate) text: Vec<u8>,
    pub(crate) note: Vec<u8>,
}

fn shelf_of<R: AllocGlobal + Abort>(
    rt: &R,
    files: &[(&str, &[u8])],
) -> Result<MemShelf, AllocError> {
    let alloc = rt.alloc();
    let mut all = Vec::new(alloc);
    for (name, bytes) in files {
        all.push((String::from_str(alloc, name)?, bytes.to_vec(alloc)?))?;
    }
    assert!(rt; names_differ(&all));
    Ok(MemShelf::new(all, 1, Vec::new(alloc), Vec::new(alloc)))
}

fn sink_of(alloc: Global, bad_writes: &[u64]) -> Result<MemSink, AllocError> {
    let bad_writes = bad_writes.to_vec(alloc)?;
    let room = vec![in alloc; 0; 600]?;
    Ok(MemSink::new(room, 1, bad_writes))
}

fn words_of(alloc: Global, words: &[&str]) -> Result<Vec<String>, AllocError> {
    let mut all = Vec::with_capacity(alloc, words.len())?;
    for word in words {
        all.push(String::from_str(alloc, word)?)?;
    }
    Ok(all)
}

fn told(alloc: Global, outcome: Outcome, text: &[u8], note: &[u8]) -> Result<Ran, AllocError> {
    let text = text.to_vec(alloc)?;
    let note = note.to_vec(alloc)?;
    Ok(Ran {
        status: outcome.status,
        numbers: outcome.numbers,
        text,
        note,
    })
}

pub(crate) fn run<R: AllocGlobal + Abort + Threads + Wait + Sync, G: Gate + Sync>(
    rt: &R,
    gate: &G,
    input: &Input<'_, '_, '_>,
) -> Result<Ran, AllocError> {
    let alloc = rt.alloc();
    let words = words_of(alloc, input.words)?;
    let mut out = sink_of(alloc, input.bad_writes)?;
    let mut notes = sink_of(alloc, &[])?;
    let mut shelf = shelf_of(rt, input.files)?;
    let outcome = gufi_run(rt, alloc, &words, &mut shelf, &mut out, &mut notes, gate);
    told(alloc, outcome, out.taken(), notes.taken())
}

/// That a run gave this status, text and note, and these numbers.
pub(crate) fn check<R: AllocGlobal + Abort>(
    rt: &R,
    ran: &Ran,
    status: u8,
    text: &[u8],
    note: &[u8],
    numbers: &[u64],
) {
    assert_eq!(rt; ran.note.as_slice(), note);
    assert_eq!(rt; ran.text.as_slice(), text);
    assert_eq!(rt; ran.status, status);
    assert_eq!(rt; ran.numbers.as_slice(), numbers);
}

// Counts the tasks of workers and the directories whose rows are looked at.
#[derive(Drop)]
pub(crate) struct Counting {
    tasks: AtomicU64,
    stores: AtomicU64,
}

impl Counting {
    pub(crate) fn new() -> Counting {
        Counting {
            tasks: AtomicU64::new(0),
            stores: AtomicU64::new(0),
        }
    }

    pub(crate) fn tasks(&self) -> u64 {
        self.tasks.load(Ordering::SeqCst)
    }

    pub(crate) fn stores(&self) -> u64 {
        self.stores.load(Ordering::SeqCst)
    }
}

impl Gate for Counting {
    fn begin(&self, kind: GateKind, _number: u32) {
        match kind {
            GateKind::Task => {
                self.tasks.fetch_add(1, Ordering::SeqCst);
            }
            GateKind::Store => {
                self.stores.fetch_add(1, Ordering::SeqCst);
            }
            _ => {}
        }
    }
}
