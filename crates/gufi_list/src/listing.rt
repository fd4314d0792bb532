//! The lines of `ls`.

ghost use Rattle.std.specs.Prelude.{◌≡◌, ℕ, ◌≤◌, ◌++◌, true, IfOk, OnOk};
ghost use Rattle.gufi_base.specs.declared.record.Row.{Row as SeenRow};
ghost use Rattle.gufi_base.specs.Kinds.{is_link};
ghost use Rattle.gufi_list.specs.Columns.{links_column, owners_column, sizes_column, meta_columns, shown_line, shown_parts};
ghost use Rattle.gufi_list.specs.Listings.{owner_text, group_text, target_text, long_text, record_line, is_hidden, is_name_shown, ls_text, ls_asks};

use crate::mode::mode_text;
use crate::put::put_signed;
use gufi_base::{Kind, Memory, Meta, Pred, Row, RowRef, Tester, put, put_named, put_u64};
use gufi_rows::{RowLine, parts_of};
use gufi_users::Users;
use std::alloc::Global;

/// Appends the name of an owner, or the number where it has none: the first name of the number in file order.
pub fn put_owner(out: &mut Vec<u8>, users: &Users, uid: u32) -> Result<(), Memory>
    ensures { OnOk result (out.new.items ≡ out.old.items ++ owner_text users.now uid) }
{
    match users.name_of_uid(uid) {
        Some(name) => put(out, name),
        None => put_u64(out, u64::from(uid)),
    }
}

/// Appends the name of a group, or the number where it has none, in the same way.
pub fn put_group(out: &mut Vec<u8>, users: &Users, gid: u32) -> Result<(), Memory>
    ensures { OnOk result (out.new.items ≡ out.old.items ++ group_text users.now gid) }
{
    match users.name_of_gid(gid) {
        Some(name) => put(out, name),
        None => put_u64(out, u64::from(gid)),
    }
}

fn put_links(out: &mut Vec<u8>, meta: &Meta) -> Result<(), Memory>
    ensures { OnOk result (out.new.items ≡ out.old.items ++ links_column meta.now) }
{
    put(out, &mode_text(meta))?;
    put_named(out, b" ", meta.nlink)
}

fn put_owners(out: &mut Vec<u8>, users: &Users, meta: &Meta) -> Result<(), Memory>
    ensures { OnOk result (out.new.items ≡ out.old.items ++ owners_column users.now meta.now) }
{
    put(out, b" ")?;
    put_owner(out, users, meta.uid)?;
    put(out, b" ")?;
    put_group(out, users, meta.gid)
}

fn put_sizes(out: &mut Vec<u8>, meta: &Meta) -> Result<(), Memory>
    ensures { OnOk result (out.new.items ≡ out.old.items ++ sizes_column meta.now) }
{
    put_named(out, b" ", meta.size)?;
    put_signed(out, b" ", meta.mtime)?;
    put(out, b" ")
}

/// What stands before the name, and a space.
fn put_columns(out: &mut Vec<u8>, users: &Users, meta: &Meta) -> Result<(), Memory>
    ensures { OnOk result (out.new.items ≡ out.old.items ++ meta_columns users.now meta.now) }
{
    put_links(out, meta)?;
    put_owners(out, users, meta)?;
    put_sizes(out, meta)
}

fn is_link(kind: Kind) -> bool
    ensures { result ≡ is_link kind }
{
    matches!(kind, Kind::Link)
}

fn put_target(out: &mut Vec<u8>, meta: &Meta, link: &[u8]) -> Result<(), Memory>
    ensures { OnOk result (out.new.items ≡ out.old.items ++ target_text meta.now link.now) }
{
    if !is_link(meta.kind) {
        return Ok(());
    }
    put(out, b" -> ")?;
    put(out, link)
}

fn put_long(out: &mut Vec<u8>, users: &Users, row: RowRef<'_>) -> Result<(), Memory>
    ensures { OnOk result (out.new.items ≡ out.old.items ++ long_text users.now row.entry.meta.now row.entry.base.now row.entry.link.now) }
{
    put_columns(out, users, row.meta)?;
    put(out, row.base)?;
    put_target(out, row.meta, row.link)
}

fn put_line(out: &mut Vec<u8>, users: &Users, long: bool, row: RowRef<'_>) -> Result<(), Memory>
    ensures { OnOk result (out.new.items ≡ out.old.items ++ record_line users.now long row.entry.meta.now row.entry.base.now row.entry.link.now) }
{
    if long {
        put_long(out, users, row)?;
    } else {
        put(out, row.base)?;
    }
    put(out, b"\n")
}

fn is_hidden(name: &[u8]) -> bool
    ensures { result ≡ is_hidden name.now }
{
    name.starts_with(b".")
}

fn is_shown(all: bool, name: &[u8]) -> bool
    ensures { result ≡ is_name_shown all name.now }
{
    all || !is_hidden(name)
}

/// The rows that `ls` shows of a start: those one level below it, and no name that begins with a dot unless `all`.
#[derive(Clone, Copy, Debug)]
pub struct OneBelow {
    pub all: bool,
}

impl OneBelow {
    /// The greatest depth of a row that is shown.
    #[tactic(auto, using(crate::proofs::Depths::one_below))]
    pub fn max_depth(&self) -> u32
        ensures exact { result ≡ 1 }
        ensures bounded { (row : SeenRow) (depth : ℕ) → ls_asks self.now.all row depth ≡ true → depth ≤ result }
    {
        1
    }
}

impl Tester for OneBelow {
    ghost meets = { λ shown row depth. ls_asks shown.all row depth };

    fn test(&mut self, _alloc: Global, row: RowRef<'_>, depth: u32) -> Result<bool, Memory> {
        Ok(depth == 1 && is_shown(self.all, row.base))
    }
}

impl Pred for OneBelow {
    type Tester = OneBelow;

    ghost sat = { λ shown row depth. ls_asks shown.all row depth };

    fn tester(&self, _alloc: Global) -> Result<OneBelow, Memory> {
        Ok(*self)
    }
}

/// What `ls` prints of a row.
///
/// A line is the name, and where `long` before it the mode string, links, owner, group, size and mtime, and behind the
/// name of a link ` -> ` and its target. Owner and group are names, or numbers where there is none. There is no line for a
/// name that begins with a dot unless `all`.
#[derive(Clone, Copy)]
pub struct LsLine<'u> {
    pub users: &'u Users,
    pub long: bool,
    pub all: bool,
}

/// The line of a row that is shown.
fn put_shown(
    out: &mut Vec<u8>,
    users: &Users,
    long: bool,
    all: bool,
    row: RowRef<'_>,
) -> Result<(), Memory>
    ensures { OnOk result (out.new.items ≡ out.old.items ++ shown_parts users.now long all row.entry) }
{
    if !is_shown(all, row.base) {
        return Ok(());
    }
    put_line(out, users, long, row)
}

impl<'u> RowLine for LsLine<'u> {
    ghost line = { λ l row. shown_line l.users.now l.long l.all row };

    #[tactic(auto, using(crate::proofs::Shown::shown_of_parts))]
    fn put(&self, row: RowRef<'_>, out: &mut Vec<u8>) -> Result<(), Memory> {
        put_shown(out, self.users, self.long, self.all, row)?;
        Ok(())
    }
}

/// What `ls` prints of rows, in the order given: the line of each that is shown. One buffer for the whole text.
pub fn ls_text(
    alloc: Global,
    rows: &[Row],
    users: &Users,
    long: bool,
    all: bool,
) -> Result<Vec<u8>, Memory>
    ensures { IfOk result (λ text. text.items ≡ ls_text rows.now users.now long all) }
{
    let line = LsLine { users, long, all };
    let mut text = Vec::new(alloc);
    for row in rows {
        line.put(parts_of(row), &mut text)?;
    }
    Ok(text)
}
