//! The class of a principal for a file, and what its bits grant.
ghost use Rattle.std.specs.Prelude.{◌≡◌};
ghost use Rattle.gufi_access.specs.Access.{rights, class_for, class_bits, is_granted, can_list, acl_grants};
ghost use Rattle.gufi_access.specs.Acl.{entries};
ghost use Rattle.gufi_access.specs.Seen.{mode_class};

use crate::acl::{MASK, OTHERS, OWNER};
use crate::granting::{bits_of_tag, bits_of_user, some_group_grants, stands_in_group};
use crate::groups::GroupList;

/// Who asks: a user ID and any groups.
#[derive(Drop)]
pub struct Principal {
    pub uid: u32,
    pub groups: GroupList,
}

/// What guards a file: its owner, its group, its mode of 12 bits, and its access control list, in entries of six bytes, or nothing.
///
/// Where there is a list it decides in place of the mode.
#[derive(Clone, Copy, Debug)]
pub struct Guard<'a> {
    pub uid: u32,
    pub gid: u32,
    pub mode: u16,
    pub acl: &'a [u8],
}

/// The one class of a principal for a file.
#[derive(Clone, Copy, Debug, PartialEq, Eq)]
pub enum Class {
    Owner,
    Group,
    Other,
}

/// The class that decides alone: the owner's, else the group's, else the others'. A named user or group is of the group's class.
///
/// Without a list it asks the groups at most once.
#[tactic(auto, unfolding(crate::specs::Access::class_for))]
pub fn class_of(who: &Principal, of: &Guard<'_>) -> Class
    ensures { result ≡ class_for who.now (rights of.now) }
{
    if of.acl.is_empty() {
        class_by_mode(who, of)
    } else if who.uid == of.uid {
        Class::Owner
    } else if stands_in_group(&who.groups, of.gid, of.acl)
        || bits_of_user(of.acl, who.uid).is_some()
    {
        Class::Group
    } else {
        Class::Other
    }
}

/// Whether every bit of `want` is granted, of read 4, write 2 and search 1. The uid 0 is granted all.
///
/// By a list the owner has his own entry's bits, a named user or group those that the mask has too (POSIX.1e, draft 17).
#[tactic(auto, unfolding(crate::specs::Access::is_granted))]
pub fn granted(who: &Principal, of: &Guard<'_>, want: u8) -> bool
    ensures { result ≡ is_granted who.now (rights of.now) want }
{
    if who.uid == 0 {
        true
    } else if of.acl.is_empty() {
        bits_of(class_by_mode(who, of), of.mode) & want == want
    } else {
        acl_grants(who, of, want)
    }
}

/// Whether a directory may be listed: read and search are both granted.
#[tactic(auto, unfolding(crate::specs::Access::can_list))]
pub fn lists(who: &Principal, of: &Guard<'_>) -> bool
    ensures { result ≡ can_list who.now (rights of.now) }
{
    granted(who, of, 5)
}

// The class where there is no list.
fn class_by_mode(who: &Principal, of: &Guard<'_>) -> Class
    ensures { result ≡ mode_class who.now (rights of.now) }
{
    if who.uid == of.uid {
        Class::Owner
    } else if who.groups.has(of.gid) {
        Class::Group
    } else {
        Class::Other
    }
}

// The three bits of a class.
pub(crate) fn bits_of(class: Class, mode: u16) -> u8
    ensures { result ≡ class_bits class mode }
{
    let shifted = match class {
        Class::Owner => mode >> 6,
        Class::Group => mode >> 3,
        Class::Other => mode,
    };
    (shifted & 7) as u8
}

// What the entries grant to others than uid 0.
#[tactic(auto, unfolding(crate::specs::Access::acl_grants))]
fn acl_grants(who: &Principal, of: &Guard<'_>, want: u8) -> bool
    ensures { result ≡ acl_grants who.now (rights of.now) (entries of.now.acl.now) want }
{
    if who.uid == of.uid {
        return bits_of_tag(of.acl, OWNER, 0) & want == want;
    }
    let masked = bits_of_tag(of.acl, MASK, 7) & want == want;
    if let Some(bits) = bits_of_user(of.acl, who.uid) {
        return bits & want == want && masked;
    }
    if stands_in_group(&who.groups, of.gid, of.acl) {
        masked && some_group_grants(&who.groups, of.gid, of.acl, want)
    } else {
        bits_of_tag(of.acl, OTHERS, 0) & want == want
    }
}
