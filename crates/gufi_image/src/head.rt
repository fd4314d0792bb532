//! The fields of an image before its directories.

ghost use Rattle.std.specs.Prelude.{◌≡◌, ◌<◌, ◌≤◌, ◌^◌, IfOk};
ghost use Rattle.std.specs.Bool.{nat_eq};
ghost use Rattle.std.specs.List.{starts_with};
ghost use Rattle.gufi_base.specs.Limits.{max_dirs, max_entries};
ghost use Rattle.gufi_image.specs.Bytes.{magic};
ghost use Rattle.gufi_image.specs.Fields.{Gives};
ghost use Rattle.gufi_image.specs.Reading.{version_at, counts_at, head_at};
ghost use Rattle.gufi_image.specs.Parts.{counts};

use crate::fault::{ImageKind, Refused};
use crate::fields::{flaw, u16_at, u32_at, u64_at};
use crate::width::{Width, width_in};

const MAX_DIRS: u32 = 262144;

const MAX_ENTRIES: u32 = 1048576;

/// The counts of the head, what the records hold, and how many bytes are left from the count of entries on.
#[derive(Clone, Copy)]
pub(crate) struct Head {
    pub width: Width,
    pub limit: u64,
    pub dirs: u32,
    pub entries: u32,
    pub left: usize,
}

fn begins_with_mark(bytes: &[u8]) -> bool
    ensures { result ≡ starts_with nat_eq bytes.now magic }
{
    bytes.starts_with(b"GUFIX\0")
}

/// The version, which tells what the records hold.
#[tactic(auto, unfolding(crate::specs::Reading::version_at))]
fn version_at(bytes: &[u8]) -> Result<(Width, &[u8]), Refused>
    ensures { Gives (λ x. (x.0, x.1.now)) result (version_at bytes.now) }
{
    let (version, rest) = u16_at(bytes)?;
    let Some(width) = width_in(version) else {
        return Err(flaw(bytes, ImageKind::Magic));
    };
    Ok((width, rest))
}

#[tactic(auto, unfolding(crate::specs::Reading::counts_at))]
fn counts_at(bytes: &[u8], width: Width) -> Result<(Head, &[u8]), Refused>
    ensures gives { Gives (λ x. (counts x.0, x.1.now)) result (counts_at width bytes.now) }
    ensures some { IfOk result (λ x. 0 < x.0.dirs) }
    ensures few { IfOk result (λ x. x.0.dirs ≤ max_dirs) }
    ensures entries { IfOk result (λ x. x.0.entries ≤ max_entries) }
    ensures left { IfOk result (λ x. x.0.left < 2 ^ 63) }
{
    let (limit, from_dirs) = u64_at(bytes)?;
    let (dirs, from_entries) = u32_at(from_dirs)?;
    if dirs > MAX_DIRS {
        return Err(flaw(from_dirs, ImageKind::TooMany { limit: 262144 }));
    }
    if dirs == 0 {
        return Err(flaw(from_dirs, ImageKind::Number));
    }
    let (entries, rest) = u32_at(from_entries)?;
    if entries > MAX_ENTRIES {
        return Err(flaw(from_entries, ImageKind::TooMany { limit: 1048576 }));
    }
    let head = Head {
        width,
        limit,
        dirs,
        entries,
        left: from_entries.len(),
    };
    Ok((head, rest))
}

#[tactic(auto, unfolding(crate::specs::Reading::head_at))]
pub(crate) fn head_at(bytes: &[u8]) -> Result<(Head, &[u8]), Refused>
    ensures gives { Gives (λ x. (counts x.0, x.1.now)) result (head_at bytes.now) }
    ensures some { IfOk result (λ x. 0 < x.0.dirs) }
    ensures few { IfOk result (λ x. x.0.dirs ≤ max_dirs) }
    ensures entries { IfOk result (λ x. x.0.entries ≤ max_entries) }
    ensures left { IfOk result (λ x. x.0.left < 2 ^ 63) }
{
    if !begins_with_mark(bytes) {
        return Err(flaw(bytes, ImageKind::Magic));
    }
    let (width, rest) = version_at(&bytes[6..])?;
    counts_at(rest, width)
}
