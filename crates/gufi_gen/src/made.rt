//! The records of a generated tree.

ghost use Rattle.std.specs.Prelude.{◌≡◌};
ghost use Rattle.gufi_gen.specs.Generated.{directory_mode, made_meta, directory_meta, entry_meta};

use gufi_base::{Kind, Meta};

/// The time of directory 0, in seconds since the epoch; each further directory is one second older.
const NEWEST: i64 = 1_700_000_000;

fn mode_of(number: u32) -> u16
    ensures { result ≡ directory_mode number }
{
    let modes: [u16; 8] = [493, 493, 488, 448, 457, 493, 504, 493];
    modes[(number % 8) as usize]
}

/// A record with the owners and times of a directory.
fn made_meta(kind: Kind, number: u32, inode: u64, mode: u16, size: u64) -> Meta
    ensures { result ≡ made_meta kind number inode mode size }
{
    let time = NEWEST - i64::from(number);
    Meta {
        kind,
        inode,
        mode,
        nlink: 1,
        uid: 1000 + number % 7,
        gid: 100 + number % 3,
        size,
        blksize: 4096,
        blocks: 8,
        atime: time,
        mtime: time,
        ctime: time,
    }
}

/// The record of a directory.
pub(crate) fn directory_meta(number: u32) -> Meta
    ensures { result ≡ directory_meta number }
{
    let inode = u64::from(number) + 1;
    made_meta(Kind::Dir, number, inode, mode_of(number), 4096)
}

/// The record of an entry of a directory.
pub(crate) fn entry_meta(number: u32, place: u32) -> Meta
    ensures { result ≡ entry_meta number place }
{
    let number_wide = u64::from(number);
    let place_wide = u64::from(place);
    let inode = 1_000_000 + 5 * number_wide + place_wide;
    let size = (37 * number_wide + 1001 * place_wide) % 5000;
    made_meta(Kind::File, number, inode, 420, size)
}
