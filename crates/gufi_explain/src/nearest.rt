//! The name that is nearest to a word by spelling.
ghost use Rattle.std.specs.Prelude.{◌≡◌, ◌++◌, IfOk, OnOk};
ghost use Rattle.std.specs.Option.{option_copied};
ghost use Rattle.gufi_explain.specs.Nearest.{edits, within, nearest, nearest_line};

use crate::rules::Entry;
use gufi_base::{Memory, put};
use std::alloc::{AllocError, Global};
use strsim::generic_levenshtein;

// How many insertions, deletions and substitutions lead from a word to a name.
fn edits(alloc: Global, word: &[u8], entry: &Entry) -> Result<usize, AllocError>
    ensures { IfOk result (λ count. count ≡ edits word.now entry.now) }
{
    generic_levenshtein(alloc, word, entry.name.as_bytes())
}

// The first name that so many edits lead to.
fn within(
    alloc: Global,
    entries: &'static [Entry],
    word: &[u8],
    most: usize,
) -> Result<Option<&'static Entry>, AllocError>
    ensures { IfOk result (λ entry. option_copied entry ≡ within most word.now entries.now) }
{
    'entries: for entry in entries {
        if edits(alloc, word, entry)? <= most {
            return Ok(Some(entry));
        }
    }
    Ok(None)
}

// The first of those that fewest edits lead to, of at most two. A word that is there has none.
#[tactic(auto, unfolding(crate::specs::Nearest::nearest))]
fn nearest(
    alloc: Global,
    entries: &'static [Entry],
    word: &[u8],
) -> Result<Option<&'static Entry>, AllocError>
    ensures { IfOk result (λ entry. option_copied entry ≡ nearest entries.now word.now) }
{
    if within(alloc, entries, word, 0)?.is_some() {
        return Ok(None);
    }
    if let Some(entry) = within(alloc, entries, word, 1)? {
        return Ok(Some(entry));
    }
    within(alloc, entries, word, 2)
}

/// Appends the line of the nearest name, where there is one.
pub(crate) fn put_nearest(
    alloc: Global,
    out: &mut Vec<u8>,
    entries: &'static [Entry],
    word: &[u8],
) -> Result<(), Memory>
    ensures { OnOk result (out.new.items ≡ out.old.items ++ nearest_line entries.now word.now) }
{
    match nearest(alloc, entries, word)? {
        Some(entry) => {
            put(out, b"  nearest: ")?;
            put(out, entry.name.as_bytes())?;
            put(out, b"\n")
        }
        None => Ok(()),
    }
}
