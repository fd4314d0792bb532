//! Reading an agg.
ghost use Rattle.std.specs.Prelude.{◌≡◌, IfOk, take};
ghost use Rattle.gufi_agg.specs.Faults.{Tells};
ghost use Rattle.gufi_agg.specs.Reading.{key_length, inner_text, agg_of, first_offset, read_behind, read_placed, read_agg};
ghost use Rattle.gufi_select.specs.Reading.{read_select};

use crate::agg::{Agg, AggKey};
use crate::fault::{AggError, AggKind};
use crate::head::{Head, head_fault, read_head};
use crate::placed::tokens_of;
use crate::tail::{Ends, read_tail};
use crate::token::{Placed, count_before_from};
use gufi_base::{behind, split_first};
use gufi_select::{SelectError, read_select};
use std::alloc::{AllocError, Global};

/// How many letters a key has.
fn key_length(key: AggKey) -> usize
    ensures { result ≡ key_length key }
{
    match key {
        AggKey::Uid => 3,
        AggKey::Gid => 3,
        AggKey::Letter => 4,
        AggKey::Level => 5,
    }
}

/// So many bytes from the front, or all.
fn front(bytes: &[u8], count: usize) -> &[u8]
    ensures { result.now ≡ take count bytes.now }
{
    if count > bytes.len() {
        return bytes;
    }
    let (front, _) = bytes.split_at(count);
    front
}

/// The text before GROUP, with spaces from the key to FROM.
fn inner_text(
    alloc: Global,
    text: &[u8],
    head: &Head,
    from: usize,
    group: usize,
) -> Result<Vec<u8>, AllocError>
    ensures { IfOk result (λ inner. inner.items ≡ inner_text text.now head.now from group) }
{
    let at = head.key_at();
    let size = key_length(head.key());
    let spaces = from.saturating_sub(at).saturating_sub(size);
    let blank = vec![in alloc; b' '; spaces]?;
    let mut inner = Vec::from_slice(alloc, front(text, at))?;
    inner.extend_from_slice(front(behind(text, at), size))?;
    inner.extend_from_slice(blank.as_slice())?;
    inner.extend_from_slice(front(behind(text, from), group.saturating_sub(from)))?;
    Ok(inner)
}

/// The SELECT between, or its fault at the same offset.
fn agg_of(alloc: Global, head: Head, inner: &[u8]) -> Result<Agg, AggError>
    ensures { Tells result (agg_of head (read_select inner.now)) }
{
    match read_select(alloc, inner) {
        Ok(select) => Ok(Agg::of(head.key(), head.into_items(), select)),
        Err(SelectError::Fault { at, kind }) => Err(AggError::Fault {
            at,
            kind: AggKind::Inner(kind),
        }),
        Err(SelectError::Memory) => Err(AggError::Memory),
    }
}

/// The offset of the first token, or else where reading stopped.
fn first_offset(stop: usize, placed: &[Placed]) -> usize
    ensures { result ≡ first_offset stop placed.now }
{
    match split_first(placed) {
        None => stop,
        Some((token, _)) => token.offset,
    }
}

/// Behind the head, with the tokens from FROM on.
fn read_behind(
    alloc: Global,
    text: &[u8],
    ends: Ends,
    head: Head,
    placed: &[Placed],
) -> Result<Agg, AggError>
    ensures { Tells result (read_behind text.now ends head placed.now) }
{
    let Some((from, rest)) = split_first(placed) else {
        return Err(head_fault(ends.stop));
    };
    let group = read_tail(head.key(), ends, rest)?;
    let inner = inner_text(alloc, text, &head, from.offset, group)?;
    agg_of(alloc, head, inner.as_slice())
}

fn read_placed(alloc: Global, text: &[u8], ends: Ends, placed: &[Placed]) -> Result<Agg, AggError>
    ensures { Tells result (read_placed text.now ends placed.now) }
{
    let count = count_before_from(placed);
    let rest = behind(placed, count);
    let head = read_head(alloc, first_offset(ends.stop, rest), &placed[..count])?;
    read_behind(alloc, text, ends, head, rest)
}

/// The agg that a text is, or its fault. Offsets in faults count bytes from 0.
///
/// Words are read without regard to ASCII case. Memory for each token, and time as for a SELECT of the text.
#[tactic(auto, unfolding(crate::specs::Reading::read_agg))]
pub fn read_agg(alloc: Global, text: &[u8]) -> Result<Agg, AggError>
    ensures { Tells result (read_agg text.now) }
{
    let tokens = tokens_of(alloc, text)?;
    let ends = Ends {
        stop: tokens.stop,
        whole: text.len(),
    };
    read_placed(alloc, text, ends, tokens.placed.as_slice())
}
