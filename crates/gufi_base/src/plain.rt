//! Paths whose bytes can be kept as they are.

ghost use Rattle.std.specs.Prelude.{◌≡◌, ◌≤◌, length, IsTrue};
ghost use Rattle.std.specs.Bool.{OnTrue};
ghost use Rattle.std.specs.List.{list_all};
ghost use Rattle.gufi_base.specs.Basics.{split};
ghost use Rattle.gufi_base.specs.Names.{is_name};
ghost use Rattle.gufi_base.specs.Paths.{kept_parts};
ghost use Rattle.gufi_base.specs.PlainTexts.{after};

use crate::name::is_name;
use crate::path_parts::count_slashes;
use crate::path_reading::{MAX_COMPONENTS, MAX_NAME, MAX_PATH, without_first_slash};

/// How far a component has come.
#[derive(Clone, Copy)]
enum Reached {
    Start,
    Dot,
    Inside,
}

/// Where a component is after one more byte. None where it is no name by that byte, or a second dot follows a first at its
/// start: what stands behind two dots is not looked into.
#[inline]
fn after(reached: Reached, byte: u8) -> Option<Reached>
    ensures { result ≡ after reached byte }
{
    match reached {
        Reached::Start => match byte {
            0 | b'\n' | b'/' => None,
            b'.' => Some(Reached::Dot),
            _ => Some(Reached::Inside),
        },
        Reached::Dot => match byte {
            0 | b'\n' | b'/' | b'.' => None,
            _ => Some(Reached::Inside),
        },
        Reached::Inside => match byte {
            0 | b'\n' => None,
            b'/' => Some(Reached::Start),
            _ => Some(Reached::Inside),
        },
    }
}

/// Whether bytes are seen at once to be names with single slashes between them. Those with a name that begins with two dots
/// are not.
pub(crate) fn are_plain(bytes: &[u8]) -> bool
    ensures { OnTrue result (IsTrue (list_all is_name (split 47 bytes.now))) }
{
    let mut reached = Reached::Start;
    let mut run = 0usize;
    for byte in bytes {
        let Some(next) = after(reached, *byte) else {
            return false;
        };
        reached = next;
        if *byte != b'/' {
            run += 1;
            continue;
        }
        if run > MAX_NAME {
            return false;
        }
        run = 0;
    }
    run <= MAX_NAME && matches!(reached, Reached::Inside)
}

/// The same of bytes that mostly are one name, which is looked at by blocks.
pub(crate) fn are_plain_or_one(bytes: &[u8]) -> bool
    ensures { OnTrue result (IsTrue (list_all is_name (split 47 bytes.now))) }
{
    is_name(bytes) || are_plain(bytes)
}

/// So many bytes or fewer have no more than 256 names, as each takes a byte and a slash.
const FEW: usize = 2 * MAX_COMPONENTS;

/// Whether bytes are short enough for a path, and have few enough slashes behind a first one.
pub(crate) fn is_within_limits(bytes: &[u8]) -> bool
    ensures short { OnTrue result (length bytes.now ≤ 4096) }
    ensures few { OnTrue result (length (kept_parts bytes.now) ≤ 256) }
{
    bytes.len() <= FEW
        || bytes.len() <= MAX_PATH && count_slashes(without_first_slash(bytes)) < MAX_COMPONENTS
}
