//! All that a listing looks at, of a mode or of an access control list.
ghost use Rattle.std.specs.Iterator.{YieldsFirstBy, item_count};
ghost use Rattle.std.specs.Prelude.{◌≡◌, length};
ghost use Rattle.gufi_access.specs.Access.{rights, has_bits};
ghost use Rattle.gufi_access.specs.Acl.{entries, entries_left};
ghost use Rattle.gufi_access.specs.Seen.{seen, seen_id, named_left};
ghost use Rattle.gufi_access.specs.Tried.{rule_of, mode_rule, acl_rule, named_by};

use crate::acl::{Entries, MASK, NAMED_GROUP, NAMED_USER, OTHERS, OWNER, OWNING_GROUP};
use crate::class::{Class, Guard, bits_of};
use crate::granting::bits_of_tag;

/// The owner, the owning group, the others and the named entries, each with whether it lets a directory be listed.
#[derive(Clone, Copy)]
pub(crate) struct Listing<'a> {
    pub(crate) owner: u32,
    pub(crate) owner_ok: bool,
    pub(crate) gid: u32,
    pub(crate) gid_ok: bool,
    pub(crate) other_ok: bool,
    masked: bool,
    acl: &'a [u8],
}

impl<'a> Listing<'a> {
    #[tactic(auto, unfolding(crate::specs::Tried::rule_of))]
    pub(crate) fn of(of: &Guard<'a>) -> Listing<'a>
        ensures { seen result ≡ rule_of (rights of.now) }
    {
        if of.acl.is_empty() {
            by_mode(of)
        } else {
            by_acl(of)
        }
    }

    /// The named users.
    pub(crate) fn users(&self) -> NamedIds<'a>
        ensures { named_left result ≡ (seen self.now).users }
    {
        NamedIds {
            first: None,
            rest: Entries::of(self.acl),
            tag: NAMED_USER,
            masked: self.masked,
        }
    }

    /// The owning group, then the named groups.
    pub(crate) fn groups(&self) -> NamedIds<'a>
        ensures { named_left result ≡ (seen self.now).groups }
    {
        NamedIds {
            first: Some(NamedId {
                id: self.gid,
                ok: self.gid_ok,
            }),
            rest: Entries::of(self.acl),
            tag: NAMED_GROUP,
            masked: self.masked,
        }
    }
}

/// An ID, and whether its entry lets a directory be listed.
#[derive(Clone, Copy)]
pub(crate) struct NamedId {
    pub(crate) id: u32,
    pub(crate) ok: bool,
}

/// A first ID, if there is one, and those of the entries with a tag.
#[derive(Drop)]
pub(crate) struct NamedIds<'a> {
    first: Option<NamedId>,
    rest: Entries<'a>,
    tag: u8,
    masked: bool,
}

impl<'a> Iterator for NamedIds<'a> {
    type Item = NamedId;

    ghost next_gives = { YieldsFirstBy seen_id named_left };

    ghost remaining = { item_count named_left };

    fn next(&mut self) -> Option<NamedId> {
        if let Some(first) = self.first {
            self.first = None;
            Some(first)
        } else {
            next_with_tag(&mut self.rest, self.tag, self.masked)
        }
    }
}

fn next_with_tag(rest: &mut Entries<'_>, tag: u8, masked: bool) -> Option<NamedId>
    ensures { YieldsFirstBy seen_id (λ s. named_by tag masked (entries_left s)) rest.old result rest.new }
{
    while let Some(entry) = rest.next() {
        if entry.tag == tag {
            return Some(NamedId {
                id: entry.id,
                ok: masked && may_list(entry.bits),
            });
        }
    }
    None
}

// Read and search are both there.
fn may_list(bits: u8) -> bool
    ensures { result ≡ has_bits bits 5 }
{
    bits & 5 == 5
}

#[tactic(auto, using(crate::proofs::EntryLemmas::entries_none), unfolding(crate::specs::Tried::named_by))]
fn by_mode<'a>(of: &Guard<'a>) -> Listing<'a>
    requires { length of.now.acl.now ≡ 0 }
    ensures { seen result ≡ mode_rule (rights of.now) }
{
    Listing {
        owner: of.uid,
        owner_ok: may_list(bits_of(Class::Owner, of.mode)),
        gid: of.gid,
        gid_ok: may_list(bits_of(Class::Group, of.mode)),
        other_ok: may_list(bits_of(Class::Other, of.mode)),
        masked: true,
        acl: of.acl,
    }
}

fn by_acl<'a>(of: &Guard<'a>) -> Listing<'a>
    ensures { seen result ≡ acl_rule (rights of.now) (entries of.now.acl.now) }
{
    let masked = may_list(bits_of_tag(of.acl, MASK, 7));
    let owning = may_list(bits_of_tag(of.acl, OWNING_GROUP, 0));
    Listing {
        owner: of.uid,
        owner_ok: may_list(bits_of_tag(of.acl, OWNER, 0)),
        gid: of.gid,
        gid_ok: masked && owning,
        other_ok: may_list(bits_of_tag(of.acl, OTHERS, 0)),
        masked,
        acl: of.acl,
    }
}
