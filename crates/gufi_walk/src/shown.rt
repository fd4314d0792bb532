//! What a principal is shown of rows.

ghost use Rattle.std.specs.Prelude.{◌≡◌, [], if◌then◌else◌};
ghost use Rattle.gufi_access.specs.Access.{is_granted};

use gufi_access::{Guard, Principal, granted};
use gufi_base::{RowRef, View};

/// Rows as they are shown to a principal: the names of a file's extended attributes only where the file itself may be read.
#[derive(Clone, Copy)]
pub struct Shown<'a> {
    pub who: &'a Principal,
}

/// Whether a file may be read.
fn may_read(who: &Principal, row: RowRef<'_>) -> bool
    ensures { result ≡ is_granted who.now (record { uid = row.entry.meta.now.uid; gid = row.entry.meta.now.gid; mode = row.entry.meta.now.mode; acl = row.entry.acl.now }) 4 }
{
    let meta = row.meta;
    let guard = Guard {
        uid: meta.uid,
        gid: meta.gid,
        mode: meta.mode,
        acl: row.acl,
    };
    granted(who, &guard, 4)
}

/// The names of extended attributes that a principal is shown of a row. Most rows have none: of those nothing is asked.
#[inline]
fn names_shown<'a>(who: &Principal, row: RowRef<'a>) -> &'a [u8]
    ensures { result.now ≡ (if is_granted who.now (record { uid = row.entry.meta.now.uid; gid = row.entry.meta.now.gid; mode = row.entry.meta.now.mode; acl = row.entry.acl.now }) 4 then row.entry.xattrs.now else []) }
{
    if row.xattrs.is_empty() || may_read(who, row) {
        return row.xattrs;
    }
    &[]
}

impl View for Shown<'_> {
    ghost use Rattle.gufi_walk.specs.Answer.{shown};
    ghost use Rattle.gufi_walk.specs.Shown.{shown-path, shown-meta, shown-link};

    ghost shows = { λ view row. shown view.who.now row };

    ghost same_path = { λ view row. shown-path view.who.now row };

    ghost same_meta = { λ view row. shown-meta view.who.now row };

    ghost same_link = { λ view row. shown-link view.who.now row };

    #[inline]
    fn view<'a>(&self, row: RowRef<'a>) -> RowRef<'a> {
        RowRef {
            xattrs: names_shown(self.who, row),
            ..row
        }
    }
}
