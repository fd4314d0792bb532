//! Reading a list.

ghost use Rattle.std.specs.Prelude.{◌≡◌, ◌||◌, IsTrue, IfOk, Vec, option_map};
ghost use Rattle.std.specs.List.{flat_map};
ghost use Rattle.std.specs.List.Sorted.{IsPermutation, IsNonDecreasingBy};
ghost use Rattle.std.specs.declared.alloc.Global.{Global};
ghost use Rattle.gufi_base.specs.Basics.{is_empty, split, GivesUnless};
ghost use Rattle.gufi_access.specs.declared.acl.Entry.{Entry};
ghost use Rattle.gufi_acl.specs.AclTexts.{has_mark, all_entries, key, entry_bytes, acl_of_entries, acl_of_text};

use crate::AclFault;
use crate::check::{ascends, has_tags, named_count};
use crate::entry::read_entry;
use gufi_access::Entry;
use gufi_base::{Bytes, behind, pieces_of};
use std::alloc::{AllocError, Global};

/// So many named entries may stand in a list.
const MAX_NAMED: usize = 32;

/// So many bytes an entry takes in text at least, with the comma behind it.
const LEAST_TEXT: usize = 7;

/// The entries between single commas, where each is one.
#[tactic(auto, unfolding(crate::specs::AclTexts::all_entries))]
fn read_entries(alloc: Global, text: &[u8]) -> Result<Option<Vec<Entry>>, AllocError>
    ensures { IfOk result (λ entries. option_map (λ (v : Vec Entry Global). v.items) entries ≡ all_entries (split 44 text.now)) }
{
    let mut entries = Vec::with_capacity(alloc, text.len() / LEAST_TEXT + 1)?;
    'entries: for piece in pieces_of(text, b",") {
        let Some(entry) = read_entry(piece) else {
            return Ok(None);
        };
        entries.push(entry)?;
    }
    Ok(Some(entries))
}

/// The tag and the ID in one number, which orders entries.
fn key(entry: Entry) -> u64
    ensures { result ≡ key entry }
{
    u64::from(entry.tag) * 4294967296 + u64::from(entry.id)
}

/// Puts entries in order, in one pass where they come in it.
fn sort_entries(entries: &mut Vec<Entry>)
    ensures same { IsPermutation entries.old.items entries.new.items }
    ensures sorted { IsNonDecreasingBy key entries.new.items }
{
    entries.sort_unstable_by_key(|entry| key(*entry));
}

/// The entries as they are kept.
fn bytes_of(alloc: Global, entries: &[Entry]) -> Result<Bytes, AllocError>
    ensures { IfOk result (λ acl. acl ≡ flat_map entry_bytes entries.now) }
{
    let mut acl = Vec::with_capacity(alloc, 6 * entries.len())?;
    'entries: for entry in entries {
        acl.push(entry.tag)?;
        acl.push(entry.bits)?;
        acl.extend_from_slice(&entry.id.to_le_bytes())?;
    }
    Ok(Bytes::of(acl))
}

/// The list that sorted entries make.
fn acl_of(alloc: Global, entries: &[Entry]) -> Result<Bytes, AclFault>
    ensures { GivesUnless AclFault.Memory result (acl_of_entries entries.now) }
{
    if !(ascends(entries) && has_tags(entries)) {
        return Err(AclFault::BadAcl);
    }
    if named_count(entries) > MAX_NAMED {
        return Err(AclFault::TooManyEntries);
    }
    Ok(bytes_of(alloc, entries)?)
}

/// The list that a text spells, six bytes an entry. An empty text spells none.
///
/// Takes O(n log n) steps for n entries, and O(n) where they come in order.
pub fn read_acl(alloc: Global, text: &[u8]) -> Result<Bytes, AclFault>
    requires { IsTrue (is_empty text.now || has_mark text.now) }
    ensures { GivesUnless AclFault.Memory result (acl_of_text text.now) }
{
    if text.is_empty() {
        return Ok(Bytes::of(Vec::new(alloc)));
    }
    let Some(mut entries) = read_entries(alloc, behind(text, 4))? else {
        return Err(AclFault::BadAcl);
    };
    sort_entries(&mut entries);
    acl_of(alloc, entries.as_slice())
}
