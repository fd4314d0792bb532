//! Names of extended attributes.

ghost use Rattle.std.specs.Prelude.{◌≡◌};
ghost use Rattle.std.specs.List.{list_all};
ghost use Rattle.gufi_base.specs.Basics.{split};
ghost use Rattle.gufi_base.specs.Xattrs.{is_xattr, are_xattrs};

use crate::bytes::are_path_bytes;
use crate::piece::pieces_of;

/// How many bytes the names of a file may have, with the commas between them.
pub const MAX_XATTRS: usize = 4096;

/// How many bytes a name may have.
pub const MAX_XATTR: usize = 255;

fn is_xattr(part: &[u8]) -> bool
    ensures { result ≡ is_xattr part.now }
{
    !part.is_empty() && part.len() <= MAX_XATTR
}

fn are_parts(names: &[u8]) -> bool
    ensures { result ≡ list_all is_xattr (split 44 names.now) }
{
    'parts: for part in pieces_of(names, b",") {
        if !is_xattr(part) {
            return false;
        }
    }
    true
}

/// Whether bytes are nothing, or names of 1 to 255 bytes joined by single commas: at most 4,096 bytes in all, without 0x00 and newline.
pub fn are_xattrs(names: &[u8]) -> bool
    ensures { result ≡ are_xattrs names.now }
{
    names.len() <= MAX_XATTRS && are_path_bytes(names) && (names.is_empty() || are_parts(names))
}
