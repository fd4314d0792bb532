//! The commands of a file of cases, a line each.
use crate::fault::Fault;
use crate::sweep::Call;
use std::num::NonZeroU32;

#[derive(Clone, Copy)]
pub(crate) enum Command<'a> {
    Remark,
    Title(&'a str),
    File {
        name: &'a str,
        count: u32,
    },
    More {
        count: u32,
    },
    Each {
        name: &'a str,
    },
    Bytes(&'a str),
    Pieces {
        read: NonZeroU32,
        write: NonZeroU32,
    },
    Byte {
        name: &'a str,
        place: usize,
        value: u8,
    },
    Cut {
        name: &'a str,
        from: usize,
        to: usize,
    },
    Fail {
        call: Call,
        from: usize,
        to: usize,
    },
    Head(usize),
    Wordless,
    Run(&'a str),
}

// The first word, and the words behind it.
fn first_word(line: &str) -> (&str, &str) {
    line.split_once(' ').unwrap_or((line, ""))
}

fn place(word: &str) -> Result<usize, Fault> {
    word.parse::<usize>().or(Err(Fault::Number))
}

fn count(word: &str) -> Result<u32, Fault> {
    if word.is_empty() {
        return Ok(1);
    }
    word.parse::<u32>().or(Err(Fault::Number))
}

fn piece(word: &str) -> Result<NonZeroU32, Fault> {
    NonZeroU32::new(count(word)?).ok_or(Fault::Number)
}

fn fail(call: Call, words: &str) -> Result<Command<'_>, Fault> {
    let (from, to) = first_word(words);
    Ok(Command::Fail {
        call,
        from: place(from)?,
        to: place(to)?,
    })
}

fn cut(words: &str) -> Result<Command<'_>, Fault> {
    let (name, range) = first_word(words);
    let (from, to) = first_word(range);
    Ok(Command::Cut {
        name,
        from: place(from)?,
        to: place(to)?,
    })
}

fn byte(words: &str) -> Result<Command<'_>, Fault> {
    let (name, change) = first_word(words);
    let (at, value) = first_word(change);
    Ok(Command::Byte {
        name,
        place: place(at)?,
        value: value.parse::<u8>().or(Err(Fault::Number))?,
    })
}

fn file(words: &str) -> Result<Command<'_>, Fault> {
    let (name, times) = first_word(words);
    Ok(Command::File {
        name,
        count: count(times)?,
    })
}

fn pieces(words: &str) -> Result<Command<'_>, Fault> {
    let (read, write) = first_word(words);
    Ok(Command::Pieces {
        read: piece(read)?,
        write: piece(write)?,
    })
}

pub(crate) fn read_command(line: &str) -> Result<Command<'_>, Fault> {
    if let Some(bytes) = line.strip_prefix("  ") {
        return Ok(Command::Bytes(bytes));
    }
    let (verb, words) = first_word(line);
    match verb {
        "" | "--" => Ok(Command::Remark),
        "#" => Ok(Command::Title(words)),
        "file" => file(words),
        "more" => Ok(Command::More {
            count: count(words)?,
        }),
        "each" => Ok(Command::Each { name: words }),
        "pieces" => pieces(words),
        "byte" => byte(words),
        "cut" => cut(words),
        "opens" => fail(Call::Open, words),
        "reads" => fail(Call::Read, words),
        "writes" => fail(Call::Write, words),
        "notes" => fail(Call::Note, words),
        "head" => Ok(Command::Head(place(words)?)),
        "wordless" => Ok(Command::Wordless),
        "run" => Ok(Command::Run(words)),
        _ => Err(Fault::Command),
    }
}
