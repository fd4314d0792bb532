//! A line of a written trace.

ghost use Rattle.std.specs.Prelude.{◌≡◌, ◌∷◌, [], ◌++◌, OnOk, decimal};
ghost use Rattle.std.specs.Fmt.{signed_decimal};
ghost use Rattle.gufi_base.specs.declared.record.Row.{Row};
ghost use Rattle.gufi_base.specs.Paths.{path_text, slashed_text};
ghost use Rattle.gufi_line.specs.TraceRows.{names_text, row_line};
ghost use Rattle.gufi_line.specs.LineParts.{number_text, signed_text, owner_text, size_text, times_text, extras_text, end_text, rec_text};

use gufi_acl::put_acl;
use gufi_base::{Memory, Meta, PathRef, RecRef, put, put_i64, put_u64};

fn put_number(out: &mut Vec<u8>, delim: u8, number: u64) -> Result<(), Memory>
    ensures { OnOk result (out.new.items ≡ out.old.items ++ number_text delim number) }
{
    put(out, &[delim])?;
    put_u64(out, number)
}

fn put_signed(out: &mut Vec<u8>, delim: u8, number: i64) -> Result<(), Memory>
    ensures { OnOk result (out.new.items ≡ out.old.items ++ signed_text delim number) }
{
    put(out, &[delim])?;
    put_i64(out, number)
}

fn put_owner(out: &mut Vec<u8>, delim: u8, meta: &Meta) -> Result<(), Memory>
    ensures { OnOk result (out.new.items ≡ out.old.items ++ owner_text delim meta.now) }
{
    put(out, &[delim, meta.kind.letter()])?;
    put_number(out, delim, meta.inode)?;
    put_number(out, delim, u64::from(meta.mode))?;
    put_number(out, delim, meta.nlink)?;
    put_number(out, delim, u64::from(meta.uid))?;
    put_number(out, delim, u64::from(meta.gid))
}

fn put_size(out: &mut Vec<u8>, delim: u8, meta: &Meta) -> Result<(), Memory>
    ensures { OnOk result (out.new.items ≡ out.old.items ++ size_text delim meta.now) }
{
    put_number(out, delim, meta.size)?;
    put_number(out, delim, meta.blksize)?;
    put_number(out, delim, meta.blocks)
}

fn put_times(out: &mut Vec<u8>, delim: u8, meta: &Meta) -> Result<(), Memory>
    ensures { OnOk result (out.new.items ≡ out.old.items ++ times_text delim meta.now) }
{
    put_signed(out, delim, meta.atime)?;
    put_signed(out, delim, meta.mtime)?;
    put_signed(out, delim, meta.ctime)
}

fn put_names(out: &mut Vec<u8>, names: &[u8]) -> Result<(), Memory>
    ensures { OnOk result (out.new.items ≡ out.old.items ++ names_text names.now) }
{
    if names.is_empty() {
        return Ok(());
    }
    put(out, b"xattrs/")?;
    put(out, names)
}

/// Appends the fields behind the link, up to the last one that isn't empty.
fn put_extras(out: &mut Vec<u8>, delim: u8, names: &[u8], acl: &[u8]) -> Result<(), Memory>
    ensures { OnOk result (out.new.items ≡ out.old.items ++ extras_text delim names.now acl.now) }
{
    if names.is_empty() && acl.is_empty() {
        return Ok(());
    }
    put(out, &[delim])?;
    put_names(out, names)?;
    if acl.is_empty() {
        return Ok(());
    }
    put(out, &[delim])?;
    put_acl(out, acl)
}

fn put_end(out: &mut Vec<u8>, delim: u8, rec: &RecRef<'_>) -> Result<(), Memory>
    ensures { OnOk result (out.new.items ≡ out.old.items ++ end_text delim rec.now) }
{
    put(out, &[delim])?;
    put(out, rec.link())?;
    put_extras(out, delim, rec.xattrs(), rec.acl())?;
    put(out, b"\n")
}

/// Appends what follows the path in the line of a record.
#[tactic(auto, unfolding(crate::specs::LineParts::rec_text))]
pub fn put_record(out: &mut Vec<u8>, delim: u8, rec: &RecRef<'_>) -> Result<(), Memory>
    ensures { OnOk result (out.new.items ≡ out.old.items ++ rec_text delim rec.now) }
{
    let meta = rec.meta();
    put_owner(out, delim, meta)?;
    put_size(out, delim, meta)?;
    put_times(out, delim, meta)?;
    put_end(out, delim, rec)
}

fn put_slashed(out: &mut Vec<u8>, path: &PathRef<'_>) -> Result<(), Memory>
    ensures { OnOk result (out.new.items ≡ out.old.items ++ slashed_text path.now) }
{
    if path.is_root() {
        return Ok(());
    }
    put(out, path.printed())
}

fn put_path(out: &mut Vec<u8>, root: &PathRef<'_>, path: &PathRef<'_>) -> Result<(), Memory>
    ensures { OnOk result (out.new.items ≡ out.old.items ++ path_text (root.now ++ path.now)) }
{
    if root.is_root() && path.is_root() {
        return put(out, b"/");
    }
    put_slashed(out, root)?;
    put_slashed(out, path)
}

fn put_entry_path(
    out: &mut Vec<u8>,
    root: &PathRef<'_>,
    path: &PathRef<'_>,
    name: &[u8],
) -> Result<(), Memory>
    ensures { OnOk result (out.new.items ≡ out.old.items ++ path_text (root.now ++ (path.now ++ name.now ∷ []))) }
{
    put_slashed(out, root)?;
    put_slashed(out, path)?;
    put(out, b"/")?;
    put(out, name)
}

/// The line of a directory.
pub fn put_directory(
    out: &mut Vec<u8>,
    root: &PathRef<'_>,
    delim: u8,
    path: &PathRef<'_>,
    rec: &RecRef<'_>,
) -> Result<(), Memory>
    ensures { OnOk result (out.new.items ≡ out.old.items ++ row_line delim root.now (record { path = path.now; rec = rec.now })) }
{
    put_path(out, root, path)?;
    put_record(out, delim, rec)
}

/// The line of an entry of a directory.
pub fn put_entry(
    out: &mut Vec<u8>,
    root: &PathRef<'_>,
    delim: u8,
    path: &PathRef<'_>,
    name: &[u8],
    rec: &RecRef<'_>,
) -> Result<(), Memory>
    ensures { OnOk result (out.new.items ≡ out.old.items ++ row_line delim root.now (record { path = path.now ++ name.now ∷ []; rec = rec.now })) }
{
    put_entry_path(out, root, path, name)?;
    put_record(out, delim, rec)
}
