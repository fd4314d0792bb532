//! What the fields of a line hold.

ghost use Rattle.std.specs.Prelude.{◌≡◌, ◌==◌};
ghost use Rattle.std.specs.List.{list_any};
ghost use Rattle.gufi_base.specs.Numbers.{read_u64, read_u32, read_i64};
ghost use Rattle.gufi_base.specs.Paths.{read_path};
ghost use Rattle.gufi_line.specs.Reading.{Gives};
ghost use Rattle.gufi_line.specs.Fields.{texts};
ghost use Rattle.gufi_line.specs.Lines.{numbered, path_with_link, meta_in};

use crate::fault::{Refused, TraceKind};
use crate::fields::Fields;
use gufi_base::{Meta, Path, PathFault, read_i64, read_kind, read_u32, read_u64};
use std::alloc::Global;

pub(crate) const MAX_LINK: usize = 4096;

/// The low 12 bits of a mode are kept.
pub(crate) const MODES: u32 = 4096;

fn u64_at(field: u32, text: &[u8]) -> Result<u64, Refused>
    ensures { Gives (λ n. n) result (numbered field (read_u64 text.now)) }
{
    match read_u64(text) {
        Some(n) => Ok(n),
        None => Err(Refused::Fault(TraceKind::BadNumber { field })),
    }
}

fn u32_at(field: u32, text: &[u8]) -> Result<u32, Refused>
    ensures { Gives (λ n. n) result (numbered field (read_u32 text.now)) }
{
    match read_u32(text) {
        Some(n) => Ok(n),
        None => Err(Refused::Fault(TraceKind::BadNumber { field })),
    }
}

fn i64_at(field: u32, text: &[u8]) -> Result<i64, Refused>
    ensures { Gives (λ n. n) result (numbered field (read_i64 text.now)) }
{
    match read_i64(text) {
        Some(n) => Ok(n),
        None => Err(Refused::Fault(TraceKind::BadNumber { field })),
    }
}

/// The record that fields 2 to 13 spell.
#[tactic(auto, unfolding(crate::specs::Lines::meta_in))]
pub(crate) fn read_meta(fields: &Fields<'_>) -> Result<Meta, Refused>
    ensures { Gives (λ meta. meta) result (meta_in (texts fields.now)) }
{
    let Some(kind) = read_kind(fields.kind) else {
        return Err(Refused::Fault(TraceKind::BadType));
    };
    let inode = u64_at(3, fields.inode)?;
    let mode = u32_at(4, fields.mode)?;
    let nlink = u64_at(5, fields.nlink)?;
    let uid = u32_at(6, fields.uid)?;
    let gid = u32_at(7, fields.gid)?;
    let size = u64_at(8, fields.size)?;
    let blksize = u64_at(9, fields.blksize)?;
    let blocks = u64_at(10, fields.blocks)?;
    let atime = i64_at(11, fields.atime)?;
    let mtime = i64_at(12, fields.mtime)?;
    let ctime = i64_at(13, fields.ctime)?;
    Ok(Meta {
        kind,
        inode,
        mode: (mode % MODES) as u16,
        nlink,
        uid,
        gid,
        size,
        blksize,
        blocks,
        atime,
        mtime,
        ctime,
    })
}

pub(crate) fn has_zero(bytes: &[u8]) -> bool
    ensures { result ≡ list_any (λ b. b == 0) bytes.now }
{
    bytes.iter().any(|b| *b == 0)
}

/// The path, where neither it nor the link has a fault.
pub(crate) fn read_path(alloc: Global, path: &[u8], link: &[u8]) -> Result<Path, Refused>
    ensures { Gives (λ path. path) result (path_with_link (read_path path.now) link.now) }
{
    match Path::read(alloc, path) {
        Err(PathFault::Memory) => Err(Refused::Memory),
        Err(PathFault::DotDot | PathFault::BadByte) => Err(Refused::Fault(TraceKind::BadPath)),
        _ if has_zero(link) => Err(Refused::Fault(TraceKind::BadPath)),
        Err(PathFault::LongName) => Err(Refused::Fault(TraceKind::LongName)),
        Ok(_) if link.len() > MAX_LINK => Err(Refused::Fault(TraceKind::LongName)),
        Ok(path) => Ok(path),
    }
}
