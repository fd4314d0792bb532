//! Records of files, rows and lines.

ghost use Rattle.std.specs.Prelude.{◌≡◌};
ghost use Rattle.gufi_base.specs.Kinds.{is_dir, kind_letter, read_kind};

use crate::list::Bytes;
use crate::path::Path;
use crate::rec_ref::RecRef;

/// The type of a file.
#[derive(Clone, Copy, Debug, PartialEq, Eq)]
pub enum Kind {
    Block,
    Char,
    Dir,
    Link,
    Fifo,
    File,
    Socket,
}

impl Kind {
    pub fn is_dir(self) -> bool
        ensures { result ≡ is_dir self }
    {
        matches!(self, Kind::Dir)
    }

    /// The letter of the type in a trace: `b c d l p f s`.
    pub fn letter(self) -> u8
        ensures { result ≡ kind_letter self }
    {
        match self {
            Kind::Block => b'b',
            Kind::Char => b'c',
            Kind::Dir => b'd',
            Kind::Link => b'l',
            Kind::Fifo => b'p',
            Kind::File => b'f',
            Kind::Socket => b's',
        }
    }
}

/// The type that a text of one letter names.
pub fn read_kind(text: &[u8]) -> Option<Kind>
    ensures { result ≡ read_kind text.now }
{
    match text {
        [b'b'] => Some(Kind::Block),
        [b'c'] => Some(Kind::Char),
        [b'd'] => Some(Kind::Dir),
        [b'l'] => Some(Kind::Link),
        [b'p'] => Some(Kind::Fifo),
        [b'f'] => Some(Kind::File),
        [b's'] => Some(Kind::Socket),
        _ => None,
    }
}

/// What a file system says of a file: sizes in bytes, blocks of 512 bytes, times in seconds since the epoch.
///
/// Fields lie in this order: first those that guard a directory, then those that questions ask for most.
#[derive(Clone, Copy, Debug, PartialEq, Eq)]
pub struct Meta {
    pub uid: u32,
    pub gid: u32,
    pub mode: u16,
    pub kind: Kind,
    pub size: u64,
    pub mtime: i64,
    pub blocks: u64,
    pub nlink: u64,
    pub inode: u64,
    pub atime: i64,
    pub ctime: i64,
    pub blksize: u64,
}

/// The record of a file, with the target of a link, the names of its extended attributes, joined by single commas, and its access
/// control list: entries of six bytes, or nothing.
#[derive(Drop)]
pub struct Rec {
    pub link: Bytes,
    pub xattrs: Bytes,
    pub acl: Bytes,
    pub meta: Meta,
}

impl Rec {
    /// The record, borrowed.
    pub fn as_rec_ref(&self) -> RecRef<'_>
        ensures { result ≡ self.now }
    {
        RecRef::of(
            &self.meta,
            self.link.as_slice(),
            self.xattrs.as_slice(),
            self.acl.as_slice(),
        )
    }
}

/// One directory or entry of the index.
#[derive(Drop)]
pub struct Row {
    pub path: Path,
    pub rec: Rec,
}

/// A row in borrowed parts: `stem` and then `base` are the text of its path.
#[derive(Clone, Copy)]
pub struct RowRef<'a> {
    pub stem: &'a [u8],
    pub base: &'a [u8],
    pub meta: &'a Meta,
    pub link: &'a [u8],
    pub xattrs: &'a [u8],
    pub acl: &'a [u8],
}

/// A line of a trace, with the root's components taken off its path.
#[derive(Drop)]
pub struct Line {
    pub number: u32,
    pub path: Path,
    pub rec: Rec,
}
