//! Which entries make a list.

ghost use Rattle.std.specs.Prelude.{◌≡◌, None};
ghost use Rattle.gufi_access.specs.Acl.{ascends_after, is_after_last, count_of, named_count, has_tags};

use gufi_access::{Entry, MASK, NAMED_GROUP, NAMED_USER, OTHERS, OWNER, OWNING_GROUP};

// Is this entry after the last one, if there is one?
fn is_after(last: Option<Entry>, entry: Entry) -> bool
    ensures { result ≡ is_after_last last entry }
{
    match last {
        Some(last) => last.tag < entry.tag || last.tag == entry.tag && last.id < entry.id,
        None => true,
    }
}

/// Whether each entry is before the next, by its tag and then by its ID.
pub(crate) fn ascends(entries: &[Entry]) -> bool
    ensures { result ≡ ascends_after None entries.now }
{
    let mut last: Option<Entry> = None;
    'entries: for entry in entries {
        if !is_after(last, *entry) {
            return false;
        }
        last = Some(*entry);
    }
    true
}

#[tactic(auto, unfolding(gufi_access::specs::Acl::count_of))]
fn count_of(entries: &[Entry], tag: u8) -> usize
    ensures { result ≡ count_of tag entries.now }
{
    entries.iter().filter(|entry| entry.tag == tag).count()
}

/// How many entries name a user or a group.
#[tactic(auto, using(crate::proofs::Checks::named_at_once))]
pub(crate) fn named_count(entries: &[Entry]) -> usize
    ensures { result ≡ named_count entries.now }
{
    entries
        .iter()
        .filter(|entry| entry.tag == NAMED_USER || entry.tag == NAMED_GROUP)
        .count()
}

/// Whether there are one owner, one owning group and one for the others, and a mask where there are named entries.
pub(crate) fn has_tags(entries: &[Entry]) -> bool
    ensures { result ≡ has_tags entries.now }
{
    let masks = count_of(entries, MASK);
    count_of(entries, OWNER) == 1
        && count_of(entries, OWNING_GROUP) == 1
        && count_of(entries, OTHERS) == 1
        && masks <= 1
        && (named_count(entries) == 0 || masks == 1)
}
