//! Numbers behind their names.

ghost use Rattle.std.specs.Prelude.{◌≡◌, ◌++◌, OnOk, decimal};

use crate::Memory;
use crate::number::{put, put_u64};

/// Appends a name and the decimal digits of the number that follows it.
pub fn put_named(out: &mut Vec<u8>, name: &[u8], number: u64) -> Result<(), Memory>
    ensures { OnOk result (out.new.items ≡ out.old.items ++ (name.now ++ decimal number)) }
{
    put(out, name)?;
    put_u64(out, number)
}
