//! How a pattern is read.
ghost use Rattle.std.specs.Prelude.{◌≡◌, ◌≢◌, ◌≤◌, length, drop, ◌∷◌, MatchResult, IfOk, IfSome, Ok, Err};
ghost use Rattle.std.specs.Bool.{OnTrue};
ghost use Rattle.std.specs.List.{list_all};
ghost use Rattle.gufi_glob.specs.Patterns.{front_part, escaped_part, bracket_part, closing, sign_length, read_pattern};
ghost use Rattle.gufi_glob.specs.KeptParts.{part_of, parts_of};
ghost use Rattle.gufi_glob.specs.Plain.{is_plain_byte};
ghost use Rattle.gufi_glob.specs.Unclosed.{IsUnclosed};

use crate::bracket::{bracket, closing, has_class, is_complemented};
use crate::fault::GlobFault;
use crate::part::Part;
use gufi_base::split_first;
use std::alloc::Global;

/// The part at the front of a pattern, how many bytes behind the first one belong to it, and whether from there on no
/// bracket closes.
#[derive(Drop)]
struct Front {
    part: Part,
    used: usize,
    is_unclosed: bool,
}

fn front_of(part: Part, used: usize, is_unclosed: bool) -> Front
    ensures part { result.part ≡ part }
    ensures used { result.used ≡ used }
    ensures unclosed { result.is_unclosed ≡ is_unclosed }
{
    Front {
        part,
        used,
        is_unclosed,
    }
}

/// A bracket, of which these bytes stand behind the `[`; or the `[` alone, where nothing closes it.
fn bracket_front(alloc: Global, rest: &[u8]) -> Result<Front, GlobFault>
    ensures value { MatchResult result
        (λ front. front_part 91 rest.now ≡ Ok (part_of front.part, front.used))
        (λ e. e ≢ GlobFault.Memory → front_part 91 rest.now ≡ Err e) }
    ensures within { IfOk result (λ front. front.used ≤ length rest.now) }
    ensures unclosed { IfOk result (λ front. OnTrue front.is_unclosed (IsUnclosed (drop front.used rest.now))) }
{
    let complement = is_complemented(rest);
    let sign = usize::from(complement);
    let inside = &rest[sign..];
    match closing(inside) {
        Some(at) => {
            let part = bracket(alloc, complement, &inside[..at])?;
            Ok(front_of(part, sign + at + 1, false))
        }
        None => {
            if has_class(rest) {
                return Err(GlobFault::BadPattern);
            }
            Ok(front_of(Part::Byte(b'['), 0, true))
        }
    }
}

/// The part that a byte begins, before these. Once nothing closes one `[`, nothing closes those behind it.
#[tactic(auto, using(crate::proofs::Unclosed::unclosed_bracket, crate::proofs::Unclosed::unclosed_behind, crate::proofs::Unclosed::unclosed_escaped))]
fn front_part(alloc: Global, is_unclosed: bool, first: u8, rest: &[u8]) -> Result<Front, GlobFault>
    requires { OnTrue is_unclosed (IsUnclosed (first ∷ rest.now)) }
    ensures value { MatchResult result
        (λ front. front_part first rest.now ≡ Ok (part_of front.part, front.used))
        (λ e. e ≢ GlobFault.Memory → front_part first rest.now ≡ Err e) }
    ensures within { IfOk result (λ front. front.used ≤ length rest.now) }
    ensures unclosed { IfOk result (λ front. OnTrue front.is_unclosed (IsUnclosed (drop front.used rest.now))) }
{
    match first {
        b'*' => Ok(front_of(Part::AnyText, 0, is_unclosed)),
        b'?' => Ok(front_of(Part::OneByte, 0, is_unclosed)),
        b'\\' => match rest {
            [next, ..] => Ok(front_of(Part::Byte(*next), 1, is_unclosed)),
            [] => Err(GlobFault::BadPattern),
        },
        b'[' => {
            if is_unclosed {
                return Ok(front_of(Part::Byte(b'['), 0, true));
            }
            bracket_front(alloc, rest)
        }
        _ => Ok(front_of(Part::Byte(first), 0, is_unclosed)),
    }
}

/// The parts of a pattern. Time in proportion to its bytes.
pub(crate) fn read_parts(alloc: Global, bytes: &[u8]) -> Result<Vec<Part>, GlobFault>
    ensures { MatchResult result
        (λ parts. read_pattern bytes.now ≡ Ok (parts_of parts.items))
        (λ e. e ≢ GlobFault.Memory → read_pattern bytes.now ≡ Err e) }
{
    let mut parts = Vec::new(alloc);
    let mut rest = bytes;
    let mut is_unclosed = false;
    'bytes: while let Some((first, behind)) = split_first(rest) {
        let front = front_part(alloc, is_unclosed, *first, behind)?;
        parts.push(front.part)?;
        is_unclosed = front.is_unclosed;
        let (_, left) = behind.split_at(front.used);
        rest = left;
    }
    Ok(parts)
}

/// Whether each byte matches itself alone.
pub(crate) fn is_plain(bytes: &[u8]) -> bool
    ensures { result ≡ list_all is_plain_byte bytes.now }
{
    bytes
        .iter()
        .all(|b| *b != b'*' && *b != b'?' && *b != b'[' && *b != b'\\')
}

/// What is behind a first `*`.
pub(crate) fn behind_star(bytes: &[u8]) -> Option<&[u8]>
    ensures { IfSome result (λ tail. bytes.now ≡ 42 ∷ tail.now) }
{
    match split_first(bytes) {
        Some((first, tail)) if *first == b'*' => Some(tail),
        _ => None,
    }
}
