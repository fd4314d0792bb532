//! The runs of one command line, and what is told of them.
use crate::bytes::put_lines;
use crate::fault::Fault;
use crate::setting::Setting;
use crate::sweep::{Call, Kind};
use gufi_help::{Channel, run, without_words};
use gufi_io::{MemSink, NoGate};
use gufi_pages::own_pages;
use std::alloc::{AllocError, Global};
use std::sync::Wait;
use std::thread::Threads;

// What runs of these numbers alike have given.
#[derive(Drop)]
struct Alike {
    from: usize,
    to: usize,
    told: Vec<u8>,
}

fn put_plain_words(all: &mut Vec<String>, alloc: Global, words: &str) -> Result<(), AllocError> {
    for word in words.split(' ') {
        if !word.is_empty() {
            all.push(String::from_str(alloc, word)?)?;
        }
    }
    Ok(())
}

// Each second piece between quotes is one word.
fn read_words(alloc: Global, line: &str) -> Result<Vec<String>, Fault> {
    let mut all = Vec::new(alloc);
    let mut quoted = false;
    for piece in line.split('"') {
        if quoted {
            all.push(String::from_str(alloc, piece)?)?;
        } else {
            put_plain_words(&mut all, alloc, piece)?;
        }
        quoted = !quoted;
    }
    if quoted { Ok(all) } else { Err(Fault::Quote) }
}

// A line of the status and of the numbers, the note, and the text.
fn tell(
    alloc: Global,
    status: u8,
    numbers: &[u64],
    note: &[u8],
    text: &[u8],
) -> Result<Vec<u8>, Fault> {
    let mut told = Vec::new(alloc);
    told.extend_from_slice(format!(in alloc; "status {status}")?.as_bytes())?;
    for number in numbers {
        told.extend_from_slice(format!(in alloc; " at {number}")?.as_bytes())?;
    }
    told.push(b'\n')?;
    put_lines(alloc, &mut told, "! ", note)?;
    put_lines(alloc, &mut told, "  ", text)?;
    Ok(told)
}

fn taken(channel: &Channel<MemSink>) -> &[u8] {
    match channel {
        Channel::To(sink) => sink.taken(),
        Channel::Held(text) => &text.bytes,
    }
}

fn run_at<R: AllocGlobal + Threads + Wait + Sync>(
    rt: &R,
    setting: &Setting,
    words: &[String],
    at: usize,
) -> Result<Vec<u8>, Fault> {
    let alloc = rt.alloc();
    let mut out = setting.sink_at(alloc, Call::Write, at)?;
    let mut notes = setting.sink_at(alloc, Call::Note, at)?;
    let mut shelf = setting.shelf_at(alloc, at)?;
    let pages = own_pages();
    let outcome = run(
        rt, alloc, &pages, words, &mut shelf, &mut out, &mut notes, &NoGate,
    );
    let text = setting.head_of(taken(&out));
    tell(alloc, outcome.status, &outcome.numbers, taken(&notes), text)
}

fn put_told(all: &mut Vec<Alike>, at: usize, told: Vec<u8>) -> Result<(), Fault> {
    match all.last_mut() {
        Some(last) if last.told == told => last.to = at,
        _ => all.push(Alike {
            from: at,
            to: at,
            told,
        })?,
    }
    Ok(())
}

fn put_alike(
    alloc: Global,
    kind: Kind,
    all: &[Alike],
    text: &mut Vec<u8>,
) -> Result<(), AllocError> {
    for Alike { from, to, told } in all {
        if kind != Kind::Once {
            let word = kind.word();
            text.extend_from_slice(format!(in alloc; "{word} {from} to {to}: ")?.as_bytes())?;
        }
        text.extend_from_slice(told)?;
    }
    Ok(())
}

/// Runs the words as often as the setting says, and puts what the runs give behind the text: once for those in a row that are alike.
pub(crate) fn put_runs<R: AllocGlobal + Threads + Wait + Sync>(
    rt: &R,
    setting: &Setting,
    words: &str,
    text: &mut Vec<u8>,
) -> Result<(), Fault> {
    let alloc = rt.alloc();
    let line = format!(in alloc; "$ {words}")?;
    text.extend_from_slice(line.as_str().trim_end().as_bytes())?;
    text.push(b'\n')?;
    let words = read_words(alloc, words)?;
    let sweep = setting.sweep();
    let mut all = Vec::new(alloc);
    for at in sweep.from..=sweep.to {
        put_told(&mut all, at, run_at(rt, setting, &words, at)?)?;
    }
    put_alike(alloc, sweep.kind, &all, text)?;
    Ok(())
}

/// Puts what a run comes to for whose words there is no memory.
pub(crate) fn put_wordless(
    alloc: Global,
    setting: &Setting,
    text: &mut Vec<u8>,
) -> Result<(), Fault> {
    let mut notes = setting.sink_at(alloc, Call::Note, 1)?;
    let status = without_words(&mut notes);
    text.extend_from_slice(b"wordless\n")?;
    let told = tell(alloc, status, &[], taken(&notes), &[])?;
    text.extend_from_slice(&told)?;
    Ok(())
}
