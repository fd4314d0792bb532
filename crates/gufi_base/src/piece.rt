//! Texts cut at a byte.

ghost use Rattle.std.specs.Prelude.{◌≡◌, length, slice_index, ◌+◌, ◌≤◌};
ghost use Rattle.gufi_base.specs.Basics.{split};

use bstr::{ByteSlice, Split};

/// The parts of a text round a separator, in order.
pub type Pieces<'a, 's> = Split<'a, 's>;

/// The parts round each place of a separator, which is one byte. A text without it is one part.
pub fn pieces_of<'a, 's>(bytes: &'a [u8], separator: &'s [u8]) -> Split<'a, 's>
    requires { length separator.now ≡ 1 }
    ensures value { result ≡ split (slice_index separator.now 0) bytes.now }
    ensures len { length result ≤ length bytes.now + 2 }
{
    bytes.split_str(separator)
}
