//! What an agg says behind FROM.
ghost use Rattle.std.specs.Prelude.{◌≡◌, option_copied, take};
ghost use Rattle.gufi_agg.specs.Tails.{tail_fault, same_key, is_key, at_end, behind_semicolon, behind_key, behind_by, behind_group, before_group, last_of, at_group, read_tail};

use crate::agg::AggKey;
use crate::fault::{AggError, AggKind};
use crate::token::{AggToken, Placed, count_before_group, is_by, is_semicolon};
use gufi_base::{behind, capped_u32, split_first};

/// Where reading stopped, and the text's length, in bytes.
#[derive(Clone, Copy)]
pub struct Ends {
    pub stop: usize,
    pub whole: usize,
}

fn tail_fault(offset: usize) -> AggError
    ensures { result ≡ tail_fault offset }
{
    AggError::Fault {
        at: capped_u32(offset),
        kind: AggKind::Tail,
    }
}

fn same_key(key: AggKey, other: AggKey) -> bool
    ensures { result ≡ same_key key other }
{
    match (key, other) {
        (AggKey::Uid, AggKey::Uid) => true,
        (AggKey::Gid, AggKey::Gid) => true,
        (AggKey::Letter, AggKey::Letter) => true,
        (AggKey::Level, AggKey::Level) => true,
        _ => false,
    }
}

fn is_key(key: AggKey, token: AggToken) -> bool
    ensures { result ≡ is_key key token }
{
    match token {
        AggToken::Key(other) => same_key(key, other),
        _ => false,
    }
}

/// Whether the text ended where reading stopped.
fn at_end(ends: Ends) -> Result<(), AggError>
    ensures { result ≡ at_end ends }
{
    if ends.stop == ends.whole {
        Ok(())
    } else {
        Err(tail_fault(ends.stop))
    }
}

fn behind_semicolon(ends: Ends, placed: &[Placed]) -> Result<(), AggError>
    ensures { result ≡ behind_semicolon ends placed.now }
{
    match split_first(placed) {
        None => at_end(ends),
        Some((first, _)) => Err(tail_fault(first.offset)),
    }
}

fn behind_key(ends: Ends, placed: &[Placed]) -> Result<(), AggError>
    ensures { result ≡ behind_key ends placed.now }
{
    match split_first(placed) {
        None => at_end(ends),
        Some((first, rest)) if is_semicolon(first.token) => behind_semicolon(ends, rest),
        Some((first, _)) => Err(tail_fault(first.offset)),
    }
}

fn behind_by(key: AggKey, ends: Ends, placed: &[Placed]) -> Result<(), AggError>
    ensures { result ≡ behind_by key ends placed.now }
{
    match split_first(placed) {
        None => Err(tail_fault(ends.stop)),
        Some((first, rest)) if is_key(key, first.token) => behind_key(ends, rest),
        Some((first, _)) => Err(tail_fault(first.offset)),
    }
}

/// What is to stand behind GROUP: BY, the key, perhaps `;`, and the end.
fn behind_group(key: AggKey, ends: Ends, placed: &[Placed]) -> Result<(), AggError>
    ensures { result ≡ behind_group key ends placed.now }
{
    match split_first(placed) {
        None => Err(tail_fault(ends.stop)),
        Some((first, rest)) if is_by(first.token) => behind_by(key, ends, rest),
        Some((first, _)) => Err(tail_fault(first.offset)),
    }
}

/// No `;` may stand right before GROUP.
fn before_group(placed: &[Placed]) -> Result<(), AggError>
    ensures { result ≡ before_group (last_of placed.now) }
{
    match placed.last() {
        Some(last) if is_semicolon(last.token) => Err(tail_fault(last.offset)),
        _ => Ok(()),
    }
}

/// The offset of the first GROUP of the tokens behind FROM.
pub(crate) fn read_tail(key: AggKey, ends: Ends, placed: &[Placed]) -> Result<usize, AggError>
    ensures { result ≡ read_tail key ends placed.now }
{
    let count = count_before_group(placed);
    let Some((group, rest)) = split_first(behind(placed, count)) else {
        return Err(tail_fault(ends.whole));
    };
    before_group(&placed[..count])?;
    behind_group(key, ends, rest)?;
    Ok(group.offset)
}
