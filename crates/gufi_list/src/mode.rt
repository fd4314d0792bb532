//! The mode string.

ghost use Rattle.std.specs.Prelude.{◌≡◌, ◌≤◌, ◌<◌};
ghost use Rattle.gufi_list.specs.Listings.{has_bit, list_letter, flag, execute, mode_text};

use gufi_base::{Kind, Meta};

fn has_bit(mode: u16, bit: u32) -> bool
    requires { bit < 16 }
    ensures { result ≡ has_bit mode bit }
{
    (mode >> bit) & 1 == 1
}

fn list_letter(kind: Kind) -> u8
    ensures { result ≡ list_letter kind }
{
    match kind {
        Kind::File => b'-',
        _ => kind.letter(),
    }
}

/// The letter where the bit is set, and else `-`.
fn flag(mode: u16, bit: u32, letter: u8) -> u8
    requires { bit < 16 }
    ensures { result ≡ flag mode bit letter }
{
    if has_bit(mode, bit) { letter } else { b'-' }
}

/// The execute place: its bit, a special bit, and the special letters with execute and without.
fn execute(mode: u16, bit: u32, special: u32, with: u8, without: u8) -> u8
    requires bit { bit < 16 }
    requires special { special < 16 }
    ensures { result ≡ execute mode bit special with without }
{
    if has_bit(mode, special) {
        return if has_bit(mode, bit) { with } else { without };
    }
    flag(mode, bit, b'x')
}

/// The mode string of `ls`: the letter of the type, `-` for a file, and three triples.
#[tactic(auto, unfolding(crate::specs::Listings::mode_text))]
pub fn mode_text(meta: &Meta) -> [u8; 10]
    ensures { result ≡ mode_text meta.now }
{
    let mode = meta.mode;
    [
        list_letter(meta.kind),
        flag(mode, 8, b'r'),
        flag(mode, 7, b'w'),
        execute(mode, 6, 11, b's', b'S'),
        flag(mode, 5, b'r'),
        flag(mode, 4, b'w'),
        execute(mode, 3, 10, b's', b'S'),
        flag(mode, 2, b'r'),
        flag(mode, 1, b'w'),
        execute(mode, 0, 9, b't', b'T'),
    ]
}
