//! Owners and groups, by name where there are tables to tell it.

ghost use Rattle.std.specs.Prelude.{◌≡◌, ◌++◌, OnOk};
ghost use Rattle.std.specs.Option.{option_copied};
ghost use Rattle.gufi_stats.specs.Named.{uid_text, gid_text};

use gufi_base::{Memory, put_u64, u32_of};
use gufi_list::{put_group, put_owner};
use gufi_users::Users;

/// Appends an owner: the number, or where there are tables the name that they give it, if any.
///
/// An owner has 32 bits: with tables a number of more is answered as want of memory.
pub fn put_uid(out: &mut Vec<u8>, uid: u64, names: Option<&Users>) -> Result<(), Memory>
    ensures { OnOk result (out.new.items ≡ out.old.items ++ uid_text (option_copied names.entry) uid) }
{
    match names {
        Some(users) => put_owner(out, users, u32_of(uid as usize)?),
        None => put_u64(out, uid),
    }
}

/// Appends a group in the same way.
pub fn put_gid(out: &mut Vec<u8>, gid: u64, names: Option<&Users>) -> Result<(), Memory>
    ensures { OnOk result (out.new.items ≡ out.old.items ++ gid_text (option_copied names.entry) gid) }
{
    match names {
        Some(users) => put_group(out, users, u32_of(gid as usize)?),
        None => put_u64(out, gid),
    }
}
