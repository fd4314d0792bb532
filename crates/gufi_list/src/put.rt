//! Numbers behind their names.

ghost use Rattle.std.specs.Prelude.{◌≡◌, ◌++◌, OnOk};
ghost use Rattle.std.specs.Fmt.{signed_decimal};

use gufi_base::{Memory, put, put_i64};

/// A word and the number, which may be below 0, that follows it.
pub(crate) fn put_signed(out: &mut Vec<u8>, word: &[u8], number: i64) -> Result<(), Memory>
    ensures { OnOk result (out.new.items ≡ out.old.items ++ (word.now ++ signed_decimal number)) }
{
    put(out, word)?;
    put_i64(out, number)
}
