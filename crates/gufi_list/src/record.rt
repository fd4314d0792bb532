//! The lines of a directory's record.

ghost use Rattle.std.specs.Prelude.{◌≡◌, ◌++◌, IfOk, OnOk, codes};
ghost use Rattle.gufi_base.specs.Paths.{path_text};
ghost use Rattle.gufi_base.specs.Basics.{line};
ghost use Rattle.gufi_list.specs.Pieces.{type_text, links_and_owners_text, size_text, early_times_text, times_text};
ghost use Rattle.gufi_list.specs.Texts.{octal_text, record_text, stat_text, total_text};

use crate::put::put_signed;
use crate::total::put_total;
use gufi_base::{Memory, Meta, PathRef, RecRef, put, put_named};
use gufi_sums::Summary;
use std::alloc::Global;

/// The four octal digits of a mode.
fn put_octal(out: &mut Vec<u8>, mode: u16) -> Result<(), Memory>
    ensures { OnOk result (out.new.items ≡ out.old.items ++ octal_text mode) }
{
    let first = b'0' + (mode / 512 % 8) as u8;
    let second = b'0' + (mode / 64 % 8) as u8;
    let third = b'0' + (mode / 8 % 8) as u8;
    let last = b'0' + (mode % 8) as u8;
    put(out, &[first, second, third, last])
}

fn put_type(out: &mut Vec<u8>, meta: &Meta) -> Result<(), Memory>
    ensures { OnOk result (out.new.items ≡ out.old.items ++ type_text meta.now) }
{
    put(out, b"type ")?;
    put(out, &[meta.kind.letter()])?;
    put(out, b" mode ")?;
    put_octal(out, meta.mode)
}

fn put_owner(out: &mut Vec<u8>, meta: &Meta) -> Result<(), Memory>
    ensures { OnOk result (out.new.items ≡ out.old.items ++ links_and_owners_text meta.now) }
{
    put_named(out, b" links ", meta.nlink)?;
    put_named(out, b" uid ", u64::from(meta.uid))?;
    put_named(out, b" gid ", u64::from(meta.gid))
}

fn put_size(out: &mut Vec<u8>, meta: &Meta) -> Result<(), Memory>
    ensures { OnOk result (out.new.items ≡ out.old.items ++ size_text meta.now) }
{
    put_named(out, b"size ", meta.size)?;
    put_named(out, b" blksize ", meta.blksize)?;
    put_named(out, b" blocks ", meta.blocks)?;
    put_named(out, b" inode ", meta.inode)
}

fn put_early_times(out: &mut Vec<u8>, meta: &Meta) -> Result<(), Memory>
    ensures { OnOk result (out.new.items ≡ out.old.items ++ early_times_text meta.now) }
{
    put_signed(out, b"atime ", meta.atime)?;
    put_signed(out, b" mtime ", meta.mtime)
}

fn put_times(out: &mut Vec<u8>, meta: &Meta) -> Result<(), Memory>
    ensures { OnOk result (out.new.items ≡ out.old.items ++ times_text meta.now) }
{
    put_early_times(out, meta)?;
    put_signed(out, b" ctime ", meta.ctime)
}

fn put_path_line(out: &mut Vec<u8>, path: &PathRef<'_>) -> Result<(), Memory>
    ensures { OnOk result (out.new.items ≡ out.old.items ++ line (codes "path " ++ path_text path.now)) }
{
    put(out, b"path ")?;
    put(out, path.printed())?;
    put(out, b"\n")
}

fn put_type_line(out: &mut Vec<u8>, meta: &Meta) -> Result<(), Memory>
    ensures { OnOk result (out.new.items ≡ out.old.items ++ line (type_text meta.now ++ links_and_owners_text meta.now)) }
{
    put_type(out, meta)?;
    put_owner(out, meta)?;
    put(out, b"\n")
}

fn put_size_line(out: &mut Vec<u8>, meta: &Meta) -> Result<(), Memory>
    ensures { OnOk result (out.new.items ≡ out.old.items ++ line (size_text meta.now)) }
{
    put_size(out, meta)?;
    put(out, b"\n")
}

fn put_times_line(out: &mut Vec<u8>, meta: &Meta) -> Result<(), Memory>
    ensures { OnOk result (out.new.items ≡ out.old.items ++ line (times_text meta.now)) }
{
    put_times(out, meta)?;
    put(out, b"\n")
}

fn put_record(out: &mut Vec<u8>, path: &PathRef<'_>, meta: &Meta) -> Result<(), Memory>
    ensures { OnOk result (out.new.items ≡ out.old.items ++ record_text path.now meta.now) }
{
    put_path_line(out, path)?;
    put_type_line(out, meta)?;
    put_size_line(out, meta)?;
    put_times_line(out, meta)
}

fn put_total_line(out: &mut Vec<u8>, sum: &Summary) -> Result<(), Memory>
    ensures { OnOk result (out.new.items ≡ out.old.items ++ line (total_text sum.now)) }
{
    put_total(out, sum)?;
    put(out, b"\n")
}

/// The record of a directory and the sum of its rows as they are printed: five lines, the last of them the sum.
///
/// The directory's path and record are borrowed. The mode is printed in four octal digits: its low twelve bits.
pub fn stat_text(
    alloc: Global,
    path: &PathRef<'_>,
    rec: &RecRef<'_>,
    sum: &Summary,
) -> Result<Vec<u8>, Memory>
    ensures { IfOk result (λ text. text.items ≡ stat_text (record { path = path.now; rec = rec.now }) sum.now) }
{
    let mut out = Vec::new(alloc);
    put_record(&mut out, path, rec.meta())?;
    put_total_line(&mut out, sum)?;
    Ok(out)
}
