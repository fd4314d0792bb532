//! What single entries of an access control list grant.
ghost use Rattle.std.specs.List.{list_any};
ghost use Rattle.std.specs.Prelude.{◌≡◌, ◌==◌, ◌&&◌, find};
ghost use Rattle.gufi_access.specs.Access.{is_member, has_bits, bits_of_tag, user_bits, in_group, group_grants};
ghost use Rattle.gufi_access.specs.Acl.{entries};

use crate::acl::{Entries, Entry, NAMED_GROUP, NAMED_USER, OWNING_GROUP};
use crate::groups::GroupList;

fn entry_with_tag(acl: &[u8], tag: u8) -> Option<Entry>
    ensures { result ≡ find (λ e. e.tag == tag) (entries acl.now) }
{
    Entries::of(acl).find(|e| e.tag == tag)
}

fn entry_of_user(acl: &[u8], uid: u32) -> Option<Entry>
    ensures { result ≡ find (λ e. (e.tag == 1) && (e.id == uid)) (entries acl.now) }
{
    Entries::of(acl).find(|e| e.tag == NAMED_USER && e.id == uid)
}

/// The bits of the entry with this tag, or these.
pub(crate) fn bits_of_tag(acl: &[u8], tag: u8, default: u8) -> u8
    ensures { result ≡ bits_of_tag tag (entries acl.now) default }
{
    match entry_with_tag(acl, tag) {
        Some(entry) => entry.bits,
        None => default,
    }
}

/// The bits of the entry that names this user.
pub(crate) fn bits_of_user(acl: &[u8], uid: u32) -> Option<u8>
    ensures { result ≡ user_bits uid (entries acl.now) }
{
    match entry_of_user(acl, uid) {
        Some(entry) => Some(entry.bits),
        None => None,
    }
}

fn names_a_group(acl: &[u8], groups: &GroupList) -> bool
    ensures { result ≡ list_any (λ e. (e.tag == 3) && is_member groups.now e.id) (entries acl.now) }
{
    Entries::of(acl).any(|e| e.tag == NAMED_GROUP && groups.has(e.id))
}

fn named_group_grants(acl: &[u8], groups: &GroupList, want: u8) -> bool
    ensures { result ≡ list_any (λ e. (e.tag == 3) && (is_member groups.now e.id && has_bits e.bits want)) (entries acl.now) }
{
    Entries::of(acl).any(|e| e.tag == NAMED_GROUP && groups.has(e.id) && e.bits & want == want)
}

/// Whether the file's group or a named one is among these.
pub(crate) fn stands_in_group(groups: &GroupList, gid: u32, acl: &[u8]) -> bool
    ensures { result ≡ in_group groups.now gid (entries acl.now) }
{
    groups.has(gid) || names_a_group(acl, groups)
}

/// Whether one entry, for the file's group or a named one among these, has all that is wanted.
pub(crate) fn some_group_grants(groups: &GroupList, gid: u32, acl: &[u8], want: u8) -> bool
    ensures { result ≡ group_grants groups.now gid (entries acl.now) want }
{
    groups.has(gid) && bits_of_tag(acl, OWNING_GROUP, 0) & want == want
        || named_group_grants(acl, groups, want)
}
