//! Paths read from bytes.

ghost use Rattle.std.specs.Prelude.{◌≡◌, ◌≢◌, ◌≤◌, [], ◌∷◌, ◌++◌, length, not, ◌||◌, nat_lt, bytes_eq, IfOk, Ok, Err, MatchResult, ◌⊎◌};
ghost use Rattle.std.specs.List.{list_any};
ghost use Rattle.gufi_base.specs.Limits.{max_name, max_path, max_components};
ghost use Rattle.gufi_base.specs.Names.{dot_dot, is_path_byte};
ghost use Rattle.gufi_base.specs.Paths.{is_dropped, kept_parts, read_path};
ghost use Rattle.gufi_base.specs.PathTexts.{kept_text, names, IsText};

use crate::bytes::are_path_bytes;
use crate::path::PathFault;
use crate::piece::pieces_of;
use std::alloc::{AllocError, Global};

pub(crate) const MAX_PATH: usize = 4096;

pub(crate) const MAX_NAME: usize = 255;

pub(crate) const MAX_COMPONENTS: usize = 256;

fn is_kept(part: &[u8]) -> bool
    ensures { result ≡ not (is_dropped part.now) }
{
    !(part.is_empty() || part == b".".as_slice())
}

fn has_bad_byte(bytes: &[u8]) -> bool
    ensures { result ≡ list_any (λ b. not (is_path_byte b)) bytes.now }
{
    !are_path_bytes(bytes)
}

/// What the names in some bytes are like.
#[derive(Clone, Copy)]
struct Parts {
    dot_dot: bool,
    long_name: bool,
    count: usize,
}

/// Looks at each name once.
fn parts_of(bytes: &[u8]) -> Parts
    ensures dot_dot { result.dot_dot ≡ list_any (bytes_eq dot_dot) (kept_parts bytes.now) }
    ensures long_name { result.long_name ≡ list_any (λ name. nat_lt max_name (length name)) (kept_parts bytes.now) }
    ensures count { result.count ≡ length (kept_parts bytes.now) }
{
    let mut dot_dot = false;
    let mut long_name = false;
    let mut count = 0;
    for part in pieces_of(bytes, b"/") {
        if is_kept(part) {
            dot_dot = dot_dot || b"..".as_slice() == part;
            long_name = long_name || part.len() > MAX_NAME;
            count += 1;
        }
    }
    Parts {
        dot_dot,
        long_name,
        count,
    }
}

fn is_too_large(bytes: &[u8], parts: &Parts) -> bool
    ensures { result ≡ nat_lt max_path (length bytes.now) || parts.now.long_name || nat_lt max_components parts.now.count }
{
    bytes.len() > MAX_PATH || parts.long_name || parts.count > MAX_COMPONENTS
}

/// The bytes behind a first slash.
pub(crate) fn without_first_slash(bytes: &[u8]) -> &[u8]
    ensures { (result.now ≡ bytes.now) ⊎ (bytes.now ≡ 47 ∷ result.now) }
{
    match bytes {
        [b'/', names @ ..] => names,
        _ => bytes,
    }
}

/// The bytes between two slashes.
pub(crate) fn closed(alloc: Global, bytes: &[u8]) -> Result<Vec<u8>, AllocError>
    ensures { IfOk result (λ text. text.items ≡ 47 ∷ (bytes.now ++ 47 ∷ [])) }
{
    let mut text = Vec::with_capacity(alloc, bytes.len() + 2)?;
    text.push(b'/')?;
    text.extend_from_slice(bytes)?;
    text.push(b'/')?;
    Ok(text)
}

/// The kept text of the names in the bytes.
fn text_of(alloc: Global, bytes: &[u8]) -> Result<Vec<u8>, AllocError>
    ensures { IfOk result (λ text. text.items ≡ kept_text (kept_parts bytes.now)) }
{
    let mut text = Vec::with_capacity(alloc, bytes.len() + 2)?;
    text.push(b'/')?;
    for part in pieces_of(bytes, b"/") {
        if is_kept(part) {
            text.extend_from_slice(part)?;
            text.push(b'/')?;
        }
    }
    Ok(text)
}

/// The kept text of the path that the bytes spell.
#[tactic(auto, unfolding(crate::specs::Paths::read_path))]
pub(crate) fn text_of_parts(alloc: Global, bytes: &[u8]) -> Result<Vec<u8>, PathFault>
    ensures { MatchResult result
        (λ text. IsText text.items × (read_path bytes.now ≡ Ok (names text.items)))
        (λ fault. fault ≢ PathFault.Memory → read_path bytes.now ≡ Err fault) }
{
    let parts = parts_of(bytes);
    if parts.dot_dot {
        return Err(PathFault::DotDot);
    }
    if has_bad_byte(bytes) {
        return Err(PathFault::BadByte);
    }
    if is_too_large(bytes, &parts) {
        return Err(PathFault::LongName);
    }
    let text = text_of(alloc, bytes)?;
    Ok(text)
}
