//! Closings: what follows a `[`.
ghost use Rattle.std.specs.Prelude.{◌≡◌, ◌≢◌, ◌<◌, ◌==◌, ◌&&◌, not, length, IfOk, IfSome, MatchResult, Ok, Err, false};
ghost use Rattle.gufi_glob.specs.Patterns.{close_at, closing, is_complemented, sign_length, unescaped_bytes, members as ranges_from, has_class, begins_class, ends_below, bracket};
ghost use Rattle.std.specs.List.{list_any};
ghost use Rattle.gufi_glob.specs.KeptParts.{part_of};

use crate::fault::GlobFault;
use crate::members::Members;
use crate::part::Part;
use std::alloc::{AllocError, Global};

/// Whether a byte is that one, and no backslash stands before it.
fn is_bare(escaped: bool, byte: u8, wanted: u8) -> bool
    ensures { result ≡ not escaped && byte == wanted }
{
    !escaped && byte == wanted
}

/// How far it is to the next `]` that no backslash makes a member.
#[tactic(auto, using(crate::proofs::Closings::close_more))]
fn close_at(bytes: &[u8]) -> Option<usize>
    ensures value { result ≡ close_at false bytes.now }
    ensures within { IfSome result (λ at. at < length bytes.now) }
{
    let mut escaped = false;
    'bytes: for (at, byte) in bytes.iter().enumerate() {
        if is_bare(escaped, *byte, b']') {
            return Some(at);
        }
        escaped = is_bare(escaped, *byte, b'\\');
    }
    None
}

/// How far it is to the `]` that closes the bracket. One that stands first is a member.
pub(crate) fn closing(inside: &[u8]) -> Option<usize>
    ensures value { result ≡ closing inside.now }
    ensures within { IfSome result (λ at. at < length inside.now) }
{
    match inside {
        [b']', rest @ ..] => match close_at(rest) {
            Some(at) => Some(at + 1),
            None => None,
        },
        _ => close_at(inside),
    }
}

/// Whether what is behind a `[` begins with `!` or `^`.
pub(crate) fn is_complemented(rest: &[u8]) -> bool
    ensures { result ≡ is_complemented rest.now }
{
    match rest {
        [first, ..] => *first == b'!' || *first == b'^',
        [] => false,
    }
}

fn begins_class(rest: &[u8]) -> bool
    ensures { result ≡ begins_class rest.now }
{
    match rest {
        [first, ..] => *first == b':' || *first == b'.' || *first == b'=',
        [] => false,
    }
}

/// Whether `[:`, `[.` or `[=` stands in the bytes.
pub(crate) fn has_class(bytes: &[u8]) -> bool
    ensures { result ≡ has_class bytes.now }
{
    let mut rest = bytes;
    'bytes: while let [first, behind @ ..] = rest {
        if *first == b'[' && begins_class(behind) {
            return true;
        }
        rest = behind;
    }
    false
}

/// The bytes that backslashes leave, each with whether one stood before it.
fn unescaped_bytes(alloc: Global, bytes: &[u8]) -> Result<Vec<(u8, bool)>, AllocError>
    ensures { IfOk result (λ members. members.items ≡ unescaped_bytes false bytes.now) }
{
    let mut members = Vec::new(alloc);
    let mut escaped = false;
    'bytes: for byte in bytes {
        if !escaped && *byte == b'\\' {
            escaped = true;
        } else {
            members.push((*byte, escaped))?;
            escaped = false;
        }
    }
    Ok(members)
}

/// The ranges that members make, from the left.
fn ranges_of(alloc: Global, members: &[(u8, bool)]) -> Result<Vec<(u8, u8)>, AllocError>
    ensures { IfOk result (λ ranges. ranges.items ≡ ranges_from 0 members.now) }
{
    let mut ranges = Vec::new(alloc);
    let mut rest = members;
    'members: while let [from, behind @ ..] = rest {
        match behind {
            [dash, to, more @ ..] if dash.0 == b'-' && !dash.1 => {
                ranges.push((from.0, to.0))?;
                rest = more;
            }
            _ => {
                ranges.push((from.0, from.0))?;
                rest = behind;
            }
        }
    }
    Ok(ranges)
}

/// Whether some range ends below its beginning.
fn any_falls(ranges: &[(u8, u8)]) -> bool
    ensures { result ≡ list_any ends_below ranges.now }
{
    ranges.iter().any(|range| range.1 < range.0)
}

/// The part that a bracket makes of the bytes before its closing.
pub(crate) fn bracket(alloc: Global, complement: bool, body: &[u8]) -> Result<Part, GlobFault>
    ensures { MatchResult result
        (λ part. bracket complement body.now ≡ Ok (part_of part))
        (λ e. e ≢ GlobFault.Memory → bracket complement body.now ≡ Err e) }
{
    let members = unescaped_bytes(alloc, body)?;
    let ranges = ranges_of(alloc, members.as_slice())?;
    if has_class(body) || any_falls(ranges.as_slice()) {
        return Err(GlobFault::BadPattern);
    }
    Ok(Part::ByteIn(Members::of(complement, ranges)))
}
