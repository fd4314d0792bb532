//! Whether parts match a text.
ghost use Rattle.std.specs.Prelude.{◌≡◌, []};
ghost use Rattle.std.specs.List.{list_any, list_all};
ghost use Rattle.gufi_glob.specs.Patterns.{matches, suffixes};
ghost use Rattle.gufi_glob.specs.KeptParts.{parts_of};
ghost use Rattle.gufi_glob.specs.Joined.{joined};

use crate::joined::Joined;
use crate::part::Part;
use gufi_base::split_first;

/// Whether the parts match the empty text.
fn match_nothing(parts: &[Part]) -> bool
    ensures { result ≡ matches (parts_of parts.now) [] }
{
    let mut rest = parts;
    'parts: while let Some((first, others)) = split_first(rest) {
        if !first.is_any_text() {
            return false;
        }
        rest = others;
    }
    true
}

/// Whether the parts match some end of the text.
///
/// Of the parts up to the next `*` the first place that fits is enough: what is left behind a later one is left behind it too.
/// So a try that fails begins again one byte on, and never before the last `*`.
fn match_some_end(parts: &[Part], text: Joined<'_>) -> bool
    ensures { result ≡ list_any (matches (parts_of parts.now)) (suffixes (joined text.entry)) }
{
    // Where the try began, and what it has still to match.
    let mut from = parts;
    let mut begin = text;
    let mut wanted = parts;
    let mut left = text;
    'tries: while let Some((byte, behind)) = left.split_first() {
        if let Some((first, others)) = split_first(wanted) {
            if first.is_any_text() {
                wanted = others;
                from = others;
                begin = left;
                continue;
            }
            if first.takes(byte) {
                wanted = others;
                left = behind;
                continue;
            }
        }
        let Some((_, next)) = begin.split_first() else {
            return false;
        };
        begin = next;
        wanted = from;
        left = next;
    }
    match_nothing(wanted)
}

/// Whether the parts match the whole text. At most as many steps as parts and bytes, multiplied; no memory.
#[inline(never)]
pub(crate) fn match_whole(parts: &[Part], text: Joined<'_>) -> bool
    ensures { result ≡ matches (parts_of parts.now) (joined text.entry) }
{
    let mut wanted = parts;
    let mut left = text;
    'parts: while let Some((first, others)) = split_first(wanted) {
        if first.is_any_text() {
            return match_some_end(others, left);
        }
        match left.split_first() {
            Some((byte, behind)) if first.takes(byte) => {
                wanted = others;
                left = behind;
            }
            _ => return false,
        }
    }
    left.split_first().is_none()
}
