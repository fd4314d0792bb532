//! Runs of the program over files in memory, as data: `args` names the files of cases, and `stdout` has what each run gives.
//!
//! `# TITLE` begins a case, without files; `-- REMARK` says nothing. `file NAME COUNT` is a file of the lines of bytes below, each
//! COUNT times (once), and `more COUNT` puts further ones behind them. `each NAME` makes each run anew for every line below, as the whole file.
//! A line of bytes has two blanks before it, and a newline behind it unless it ends with `\`; `\n`, `\t`, `\0`, `\xHH` and `\\` are one byte.
//! `\#` is which of the COUNT copies this is, from 1, and what stands between `\(` and `\)` stands there as often as that number says.
//! `pieces READ WRITE` is the most that is read and written at a time: 65536 and 5 bytes where it is left out.
//! For the next run alone, `byte NAME PLACE VALUE` changes a byte. `cut NAME FROM TO` makes it anew for each such count of first bytes,
//! and `opens`, `reads`, `writes` and `notes`, with `FROM TO`, for each call of that number, which fails. `head N` tells the first N bytes
//! of its text alone.
//! `run WORDS` tells the words, the status, the numbers, the note behind `!`, and the text. A word in `"` may hold blanks.
//! `wordless` is a run for whose words there is no memory.
#![tactic(auto)]

mod bytes;
mod command;
mod fault;
mod run;
mod setting;
mod sweep;

use crate::command::{Command, read_command};
use crate::fault::Fault;
use crate::run::{put_runs, put_wordless};
use crate::setting::Setting;
use anyhow::{Result, bail};
use std::io::Write;
use std::sync::Wait;
use std::thread::Threads;
use std::{env, fs};

fn obey<R: AllocGlobal + Threads + Wait + Sync>(
    rt: &R,
    setting: &mut Setting,
    command: Command<'_>,
    text: &mut Vec<u8>,
) -> Result<(), Fault> {
    let alloc = rt.alloc();
    match command {
        Command::Remark => {}
        Command::Title(title) => {
            *setting = Setting::new(alloc);
            text.extend_from_slice(b"\n# ")?;
            text.extend_from_slice(title.as_bytes())?;
            text.push(b'\n')?;
        }
        Command::File { name, count } => setting.put_file(alloc, name, count)?,
        Command::More { count } => setting.repeat(count),
        Command::Each { name } => setting.put_each(alloc, name)?,
        Command::Bytes(line) => setting.put_line(alloc, line)?,
        Command::Pieces { read, write } => setting.put_pieces(read, write),
        Command::Byte { name, place, value } => setting.put_byte(name, place, value)?,
        Command::Cut { name, from, to } => setting.put_cut(name, from, to)?,
        Command::Fail { call, from, to } => setting.put_fault(call, from, to),
        Command::Head(count) => setting.put_head(count),
        Command::Wordless => put_wordless(alloc, setting, text)?,
        Command::Run(words) => {
            put_runs(rt, setting, words, text)?;
            setting.forget(alloc);
        }
    }
    Ok(())
}

fn put_topic<R: AllocGlobal + Threads + Wait + Sync>(
    rt: &R,
    topic: &str,
    cases: &str,
    text: &mut Vec<u8>,
) -> Result<()> {
    let mut setting = Setting::new(rt.alloc());
    let mut number = 0u64;
    for line in cases.lines() {
        number = number.saturating_add(1);
        let outcome = match read_command(line) {
            Ok(command) => obey(rt, &mut setting, command, text),
            Err(fault) => Err(fault),
        };
        if let Err(fault) = outcome {
            drop(setting);
            bail!("{topic} line {number}: {fault}");
        }
    }
    Ok(())
}

fn main(rt: HostRuntime) -> Result<()> {
    let mut text = Vec::new(rt.alloc());
    for topic in env::args(&rt)?.skip(1) {
        let cases = fs::read_to_string(&rt, topic.as_str())?;
        put_topic(&rt, topic.as_str(), cases.as_str(), &mut text)?;
    }
    rt.stdout().write_all(&text)?;
    Ok(())
}
