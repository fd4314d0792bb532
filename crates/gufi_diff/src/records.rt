//! Whether two rows have the same record.

ghost use Rattle.std.specs.Prelude.{◌≡◌, ◌&&◌, bytes_eq};
ghost use Rattle.gufi_base.specs.declared.record.Row.{Row};
ghost use Rattle.gufi_base.specs.Rows.{Stands};
ghost use Rattle.gufi_diff.specs.Records.{same_owners, same_sizes, same_times, same_meta, same_record};

use gufi_base::{Meta, RowRef, same_bytes};

fn same_owners(a: &Meta, b: &Meta) -> bool
    ensures { result ≡ same_owners a.now b.now }
{
    a.uid == b.uid && a.gid == b.gid && a.mode == b.mode && a.kind.letter() == b.kind.letter()
}

fn same_sizes(a: &Meta, b: &Meta) -> bool
    ensures { result ≡ same_sizes a.now b.now }
{
    a.size == b.size
        && a.blocks == b.blocks
        && a.blksize == b.blksize
        && a.nlink == b.nlink
        && a.inode == b.inode
}

fn same_times(a: &Meta, b: &Meta) -> bool
    ensures { result ≡ same_times a.now b.now }
{
    a.atime == b.atime && a.mtime == b.mtime && a.ctime == b.ctime
}

#[tactic(auto, unfolding(crate::specs::Records::same_meta))]
fn same_meta(a: &Meta, b: &Meta) -> bool
    ensures { result ≡ same_meta a.now b.now }
{
    same_owners(a, b) && same_sizes(a, b) && same_times(a, b)
}

/// Whether the texts of two records are the same.
fn same_texts(a: RowRef<'_>, b: RowRef<'_>) -> bool
    ensures { result ≡ (bytes_eq a.entry.link.now b.entry.link.now && (bytes_eq a.entry.xattrs.now b.entry.xattrs.now && bytes_eq a.entry.acl.now b.entry.acl.now)) }
{
    same_bytes(a.link, b.link) && (same_bytes(a.xattrs, b.xattrs) && same_bytes(a.acl, b.acl))
}

/// Whether the rows have the same record, whatever their paths. Nothing is copied.
pub(crate) fn same_record(a: RowRef<'_>, b: RowRef<'_>) -> bool
    ensures { (one other : Row) → Stands a.entry one → Stands b.entry other → result ≡ same_record one.rec other.rec }
{
    same_meta(a.meta, b.meta) && same_texts(a, b)
}
