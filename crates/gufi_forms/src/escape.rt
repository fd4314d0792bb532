//! Texts whose bytes are escaped.

ghost use Rattle.std.specs.Prelude.{◌≡◌, ◌++◌, OnOk};
ghost use Rattle.gufi_forms.specs.Escapes.{octal_digit, is_printable, escaped_byte, escaped};

use gufi_base::{Memory, put};

fn is_printable(byte: u8) -> bool
    ensures { result ≡ is_printable byte }
{
    32 <= byte && byte <= 126
}

fn octal_digit(number: u8) -> u8
    ensures { result ≡ octal_digit number }
{
    48 + number % 8
}

fn put_escaped_byte(out: &mut Vec<u8>, byte: u8) -> Result<(), Memory>
    ensures { OnOk result (out.new.items ≡ out.old.items ++ escaped_byte byte) }
{
    match byte {
        b'\t' => put(out, b"\\t"),
        b'\n' => put(out, b"\\n"),
        b'\\' => put(out, b"\\\\"),
        _ if is_printable(byte) => Ok(out.push(byte)?),
        _ => {
            let digits = [
                b'\\',
                octal_digit(byte / 64),
                octal_digit(byte / 8),
                octal_digit(byte),
            ];
            put(out, &digits)
        }
    }
}

/// Appends a text, escaped: a tab as `\t`, a newline as `\n`, a backslash as `\\`, each other byte that isn't printable ASCII as
/// a backslash and three octal digits, and each other byte as it is.
pub(crate) fn put_escaped(out: &mut Vec<u8>, bytes: &[u8]) -> Result<(), Memory>
    ensures { OnOk result (out.new.items ≡ out.old.items ++ escaped bytes.now) }
{
    for byte in bytes {
        put_escaped_byte(out, *byte)?;
    }
    Ok(())
}
