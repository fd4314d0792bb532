//! Lines of bytes, as they are read in files of cases and printed.
use crate::fault::Fault;
use std::alloc::{AllocError, Global};

// What was read of a byte that is written in several.
#[derive(Clone, Copy)]
enum Escape {
    None,
    Begun,
    Hex,
    Digit(u8),
}

fn digit(byte: u8) -> Result<u8, Fault> {
    match byte {
        b'0'..=b'9' => Ok(byte - b'0'),
        b'a'..=b'f' => Ok(byte - b'a' + 10),
        _ => Err(Fault::Escape),
    }
}

fn short(byte: u8) -> Result<u8, Fault> {
    match byte {
        b'n' => Ok(b'\n'),
        b't' => Ok(b'\t'),
        b'0' => Ok(0),
        b'\\' => Ok(b'\\'),
        _ => Err(Fault::Escape),
    }
}

// Takes a byte of a line, and puts what it completes behind the bytes.
fn next(escape: Escape, byte: u8, bytes: &mut Vec<u8>) -> Result<Escape, Fault> {
    let whole = match escape {
        Escape::None if byte == b'\\' => return Ok(Escape::Begun),
        Escape::None => byte,
        Escape::Begun if byte == b'x' => return Ok(Escape::Hex),
        Escape::Begun => short(byte)?,
        Escape::Hex => return Ok(Escape::Digit(digit(byte)?)),
        Escape::Digit(high) => high << 4 | digit(byte)?,
    };
    bytes.push(whole)?;
    Ok(Escape::None)
}

// Puts the number of a copy behind bytes, or, as often as it says, what stands there from a place on, where the byte means one of these.
fn put_by_copy(
    alloc: Global,
    byte: u8,
    copy: u32,
    from: &mut usize,
    bytes: &mut Vec<u8>,
) -> Result<bool, AllocError> {
    match byte {
        b'#' => bytes.extend_from_slice(format!(in alloc; "{copy}")?.as_bytes())?,
        b'(' => *from = bytes.len(),
        b')' => {
            let before = (*from).min(bytes.len());
            let part = bytes.as_slice().split_at(before).1.to_vec(alloc)?;
            for _ in 1..copy {
                bytes.extend_from_slice(&part)?;
            }
        }
        _ => return Ok(false),
    }
    Ok(true)
}

/// Puts the bytes of a line behind others, in the copy of this number.
pub(crate) fn read_line(
    alloc: Global,
    line: &str,
    copy: u32,
    bytes: &mut Vec<u8>,
) -> Result<(), Fault> {
    let mut escape = Escape::None;
    let mut from = bytes.len();
    for byte in line.bytes() {
        if matches!(escape, Escape::Begun) && put_by_copy(alloc, byte, copy, &mut from, bytes)? {
            escape = Escape::None;
        } else {
            escape = next(escape, byte, bytes)?;
        }
    }
    match escape {
        Escape::None => Ok(bytes.push(b'\n')?),
        Escape::Begun => Ok(()),
        _ => Err(Fault::Escape),
    }
}

fn put_byte(alloc: Global, text: &mut Vec<u8>, byte: u8) -> Result<(), AllocError> {
    match byte {
        b'\\' => text.extend_from_slice(b"\\\\"),
        b'\t' => text.extend_from_slice(b"\\t"),
        0 => text.extend_from_slice(b"\\0"),
        b'\n' | b' '..=b'~' => Ok(text.push(byte)?),
        _ => text.extend_from_slice(format!(in alloc; "\\x{byte:02x}")?.as_bytes()),
    }
}

/// Prints bytes in lines, each behind a mark.
pub(crate) fn put_lines(
    alloc: Global,
    text: &mut Vec<u8>,
    mark: &str,
    bytes: &[u8],
) -> Result<(), AllocError> {
    let mut begins = true;
    for byte in bytes {
        if begins {
            text.extend_from_slice(mark.as_bytes())?;
        }
        put_byte(alloc, text, *byte)?;
        begins = *byte == b'\n';
    }
    if begins {
        return Ok(());
    }
    text.extend_from_slice(b"\\\n")
}
