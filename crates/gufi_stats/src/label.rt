//! What stands in a line before its counts.

ghost use Rattle.std.specs.Prelude.{◌≡◌, ◌++◌, OnOk};
ghost use Rattle.gufi_stats.specs.Labels.{label_text};

use crate::named::{put_gid, put_uid};
use gufi_base::{Memory, put, put_named};
use gufi_users::Users;

/// The word of a line, and how its number is told.
#[derive(Clone, Copy)]
pub(crate) enum Label<'u> {
    Level,
    /// An owner, by name where there are tables.
    Uid(Option<&'u Users>),
    /// A group, by name where there are tables.
    Gid(Option<&'u Users>),
}

pub(crate) fn put_label(out: &mut Vec<u8>, label: Label<'_>, number: u64) -> Result<(), Memory>
    ensures { OnOk result (out.new.items ≡ out.old.items ++ label_text label.entry number) }
{
    match label {
        Label::Level => put_named(out, b"level ", number),
        Label::Uid(names) => {
            put(out, b"uid ")?;
            put_uid(out, number, names)
        }
        Label::Gid(names) => {
            put(out, b"gid ")?;
            put_gid(out, number, names)
        }
    }
}
