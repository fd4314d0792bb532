//! `gufi`: a file index with permission-exact queries.
//!
//! The program is one call of `gufi_help::run` over the system's files and standard streams: a page where the words ask for
//! one, and else all that `gufi_top::gufi_run` does. It is made in a thread with a stack of a stated size, since a stack that
//! the system can't let grow ends the program.
#![tactic(auto)]

use core::thread::Anything;
use gufi_help::{Channel, Watched, WatchedShelf, run, without_words};
use gufi_io::{FileShelf, NoGate, Shelf, Sink, StdSink};
use gufi_pages::own_pages;
use std::alloc::Global;
use std::io::ErrorKind;
use std::process::ExitCode;
use std::sync::Wait;
use std::thread::{Builder, Threads};
use std::{env, io};

// The bytes of stack that a run has: the most deeply nested pattern takes a fifth of it.
const STACK: usize = 2 * 1024 * 1024;

// The words after the program's name.
fn words(rt: &HostRuntime) -> io::Result<Vec<String>> {
    let mut args = env::args(rt)?;
    args.next();
    Ok(args.collect(rt.alloc())?)
}

// Whether there is memory for as much again as the stack of a run.
fn has_room(alloc: Global) -> bool {
    Vec::<u8>::with_capacity(alloc, STACK).is_ok()
}

// What a run comes to, by the program's pages.
fn answered<R: Threads + Wait + Sync, F: Shelf + Watched, K: Sink + Drop>(
    rt: &R,
    alloc: Global,
    words: &[String],
    shelf: &mut F,
    out: &mut Channel<K>,
    notes: &mut Channel<K>,
) -> u8 {
    let pages = own_pages();
    let outcome = run(rt, alloc, &pages, words, shelf, out, notes, &NoGate);
    outcome.status
}

fn main(rt: HostRuntime) -> ExitCode {
    let answer = move || {
        let mut shelf = WatchedShelf::new(rt.alloc(), FileShelf::new(&rt));
        let mut out = Channel::To(StdSink::output(rt.stdout()));
        let mut notes = Channel::To(StdSink::errors(rt.stderr()));
        let words = match words(&rt) {
            Ok(words) => words,
            Err(error) if error.kind() == ErrorKind::OutOfMemory => {
                return without_words(&mut notes);
            }
            // Words that aren't text are answered as none.
            Err(_) => Vec::new(rt.alloc()),
        };
        answered(&rt, rt.alloc(), &words, &mut shelf, &mut out, &mut notes)
    };
    let stacked = Builder::new().stack_size(STACK);
    let status = match stacked.spawn_with(&rt, Anything, answer) {
        Ok(running) => running.forget_promise().join(&rt),
        // No further thread may be started, or there is no memory for its stack.
        Err(refused) if has_room(rt.alloc()) => (refused.value)(),
        Err(_) => without_words(&mut StdSink::errors(rt.stderr())),
    };
    ExitCode::from(status)
}
