//! Access control lists as they are kept, and which of them are well formed (POSIX.1e, draft 17).
ghost use Rattle.std.specs.Iterator.{YieldsFirst, item_count};
ghost use Rattle.std.specs.List.{list_all};
ghost use Rattle.std.specs.Prelude.{◌≡◌, None};
ghost use Rattle.gufi_access.specs.Acl.{entries, entries_left, is_acl, is_entry, has_tags, named_count, ascends_after, is_after_last, count_of};

/// The tags of entries, in their order: the owner, a named user, the owning group, a named group, the mask, the others.
pub const OWNER: u8 = 0;

pub const NAMED_USER: u8 = 1;

pub const OWNING_GROUP: u8 = 2;

pub const NAMED_GROUP: u8 = 3;

pub const MASK: u8 = 4;

pub const OTHERS: u8 = 5;

// So many named entries may stand in a list.
const MAX_NAMED: usize = 32;

/// One entry of an access control list. The tags are 0 the owner, 1 a named user, 2 the owning group, 3 a named group, 4 the mask, 5 the others; the bits
/// are read 4, write 2 and search 1.
#[derive(Clone, Copy, Debug, PartialEq, Eq)]
pub struct Entry {
    pub tag: u8,
    pub bits: u8,
    pub id: u32,
}

/// The entries of a list, of six bytes each: the tag, the bits, and the ID from its lowest byte. A shorter rest is left out.
#[derive(Drop)]
pub struct Entries<'a> {
    rest: &'a [u8],
}

impl<'a> Entries<'a> {
    pub fn of(acl: &'a [u8]) -> Entries<'a>
        ensures { entries_left result ≡ entries acl.now }
    {
        Entries { rest: acl }
    }
}

impl<'a> Iterator for Entries<'a> {
    type Item = Entry;

    ghost next_gives = { YieldsFirst entries_left };

    ghost remaining = { item_count entries_left };

    #[tactic(auto, using(crate::proofs::EntryLemmas::entries_short, crate::proofs::EntryLemmas::entries_long))]
    fn next(&mut self) -> Option<Entry> {
        if let [tag, bits, a, b, c, d, rest @ ..] = self.rest {
            let entry = Entry {
                tag: *tag,
                bits: *bits,
                id: u32::from_le_bytes([*a, *b, *c, *d]),
            };
            self.rest = rest;
            Some(entry)
        } else {
            None
        }
    }
}

/// Whether these bytes are a list: whole entries in ascending order, each of its form, with an owner, an owning group and one for the others, a mask where
/// there are named entries, and at most 32 of these. Takes no memory.
#[tactic(auto, unfolding(crate::specs::Acl::is_acl))]
pub fn acl_ok(acl: &[u8]) -> bool
    ensures { result ≡ is_acl acl.now }
{
    acl.len() % 6 == 0
        && ascends(acl)
        && is_formed(acl)
        && has_tags(acl)
        && named_count(acl) <= MAX_NAMED
}

// Whether an entry is after the last one, if there is one.
fn is_after(last: Option<Entry>, entry: Entry) -> bool
    ensures { result ≡ is_after_last last entry }
{
    match last {
        Some(last) => last.tag < entry.tag || last.tag == entry.tag && last.id < entry.id,
        None => true,
    }
}

#[tactic(auto, using(crate::proofs::EntryLemmas::ascends_step, crate::proofs::EntryLemmas::ascends_end))]
fn ascends(acl: &[u8]) -> bool
    ensures { result ≡ ascends_after None (entries acl.now) }
{
    let mut last: Option<Entry> = None;
    for entry in Entries::of(acl) {
        if !is_after(last, entry) {
            return false;
        }
        last = Some(entry);
    }
    true
}

fn is_formed(acl: &[u8]) -> bool
    ensures { result ≡ list_all is_entry (entries acl.now) }
{
    Entries::of(acl).all(|e| e.bits <= 7
        && e.tag <= OTHERS
        && (e.tag == NAMED_USER || e.tag == NAMED_GROUP || e.id == 0))
}

#[tactic(auto, unfolding(crate::specs::Acl::count_of))]
fn count_tag(acl: &[u8], tag: u8) -> usize
    ensures { result ≡ count_of tag (entries acl.now) }
{
    Entries::of(acl).filter(|e| e.tag == tag).count()
}

fn named_count(acl: &[u8]) -> usize
    ensures { result ≡ named_count (entries acl.now) }
{
    count_tag(acl, NAMED_USER) + count_tag(acl, NAMED_GROUP)
}

fn has_tags(acl: &[u8]) -> bool
    ensures { result ≡ has_tags (entries acl.now) }
{
    let masks = count_tag(acl, MASK);
    count_tag(acl, OWNER) == 1
        && count_tag(acl, OWNING_GROUP) == 1
        && count_tag(acl, OTHERS) == 1
        && masks <= 1
        && (named_count(acl) == 0 || masks == 1)
}
