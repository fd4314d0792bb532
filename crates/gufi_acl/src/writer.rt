//! Writing a list.

ghost use Rattle.std.specs.Prelude.{◌≡◌, ◌++◌, ◌∷◌, ℕ, List, map, OnOk, OnErr};
ghost use Rattle.std.specs.List.{flat_map, join_with_byte};
ghost use Rattle.gufi_access.specs.Acl.{entries, entries_left};
ghost use Rattle.gufi_acl.specs.AclTexts.{tag_word, bit_text, entry_text, acl_text};

use gufi_access::{Entries, Entry, MASK, NAMED_GROUP, NAMED_USER, OWNER, OWNING_GROUP};
use gufi_base::{Memory, put_u64};

fn tag_word(tag: u8) -> &'static [u8]
    ensures { result.now ≡ tag_word tag }
{
    if tag == OWNER || tag == NAMED_USER {
        b"user"
    } else if tag == OWNING_GROUP || tag == NAMED_GROUP {
        b"group"
    } else if tag == MASK {
        b"mask"
    } else {
        b"other"
    }
}

fn bit_text(bit: u8, letter: u8) -> u8
    ensures { result ≡ bit_text bit letter }
{
    if bit == 1 { letter } else { b'-' }
}

/// Appends an entry.
fn put_entry(out: &mut Vec<u8>, entry: Entry) -> Result<(), Memory>
    ensures put { OnOk result (out.new.items ≡ out.old.items ++ entry_text entry) }
    ensures grown { (more : List ℕ) × (out.new.items ≡ out.old.items ++ more) }
{
    out.extend_from_slice(tag_word(entry.tag))?;
    out.push(b':')?;
    if entry.tag == NAMED_USER || entry.tag == NAMED_GROUP {
        put_u64(out, u64::from(entry.id))?;
    }
    out.push(b':')?;
    out.push(bit_text(entry.bits / 4 % 2, b'r'))?;
    out.push(bit_text(entry.bits / 2 % 2, b'w'))?;
    out.push(bit_text(entry.bits % 2, b'x'))?;
    Ok(())
}

/// Appends entries, each behind a comma.
fn put_others(out: &mut Vec<u8>, others: Entries<'_>) -> Result<(), Memory>
    ensures put { OnOk result (out.new.items ≡ out.old.items ++ flat_map (λ entry. 44 ∷ entry_text entry) (entries_left others.entry)) }
    ensures grown { (more : List ℕ) × (out.new.items ≡ out.old.items ++ more) }
{
    'others: for entry in others {
        out.push(b',')?;
        put_entry(out, entry)?;
    }
    Ok(())
}

/// Appends the entries of a list, with commas between them.
fn put_entries(out: &mut Vec<u8>, acl: &[u8]) -> Result<(), Memory>
    ensures put { OnOk result (out.new.items ≡ out.old.items ++ join_with_byte 44 (map entry_text (entries acl.now))) }
    ensures grown { (more : List ℕ) × (out.new.items ≡ out.old.items ++ more) }
{
    let mut others = Entries::of(acl);
    let Some(first) = others.next() else {
        return Ok(());
    };
    put_entry(out, first)?;
    put_others(out, others)
}

#[tactic(auto, unfolding(crate::specs::AclTexts::acl_text))]
fn put_text(out: &mut Vec<u8>, acl: &[u8]) -> Result<(), Memory>
    ensures put { OnOk result (out.new.items ≡ out.old.items ++ acl_text acl.now) }
    ensures grown { (more : List ℕ) × (out.new.items ≡ out.old.items ++ more) }
{
    if acl.is_empty() {
        return Ok(());
    }
    out.extend_from_slice(b"acl/")?;
    put_entries(out, acl)
}

/// Appends the text of a list: nothing for none. A refusal leaves `out` as it was.
pub fn put_acl(out: &mut Vec<u8>, acl: &[u8]) -> Result<(), Memory>
    ensures put { OnOk result (out.new.items ≡ out.old.items ++ acl_text acl.now) }
    ensures kept { OnErr result (out.new.items ≡ out.old.items) }
{
    let start = out.len();
    match put_text(out, acl) {
        Ok(()) => Ok(()),
        Err(fault) => {
            out.truncate(start);
            Err(fault)
        }
    }
}
