//! The entries of a directory in an image.

ghost use Rattle.std.specs.Prelude.{◌≡◌, ◌≤◌, ◌++◌, ℕ, List, true, false, length, IsTrue, IfOk, IfErr, OnOk, IfSome};
ghost use Rattle.gufi_base.specs.Kinds.{is_dir};
ghost use Rattle.gufi_image.specs.Fields.{Gives};
ghost use Rattle.gufi_image.specs.Entries.{entry_kind, follows, entry_at};
ghost use Rattle.gufi_image.specs.Placed.{AreEntries};
ghost use Rattle.gufi_image.specs.Views.{entry_seen};
ghost use Rattle.gufi_tree.specs.Packs.{entries_of};
ghost use Rattle.gufi_base.specs.Names.{is_name};
ghost use Rattle.gufi_image.specs.Pieces.{OnFlaw, Stops, entries_from};

use crate::fault::{ImageKind, Refused};
use crate::fields::{flaw, u8_at};
use crate::name::{Above, name_at};
use crate::record::{RecordAt, record_at};
use crate::width::Width;
use gufi_base::{Kind, read_kind};
use gufi_tree::Packing;

fn entry_kind(letter: u8) -> Option<Kind>
    ensures is { result ≡ entry_kind letter }
    ensures kind { IfSome result (λ kind. is_dir kind ≡ false) }
{
    if letter == b'd' {
        return None;
    }
    read_kind(&[letter])
}

/// Whether a name is above that of the last entry.
fn follows(before: &Packing, name: &[u8]) -> bool
    ensures { result ≡ follows (entries_of before.now.pending) name.now }
{
    match before.last_pending() {
        None => true,
        Some(last) => last.name().cmp(name).is_lt(),
    }
}

/// An entry whose parts stay where they stand in the image.
#[derive(Drop)]
struct EntryAt<'a> {
    name: &'a [u8],
    rec: RecordAt<'a>,
}

/// An entry, behind those before it.
#[inline(always)]
#[tactic(auto, unfolding(crate::specs::Entries::entry_at))]
fn entry_at<'a>(
    bytes: &'a [u8],
    width: Width,
    above: &Above<'_>,
    before: &Packing,
) -> Result<(EntryAt<'a>, &'a [u8]), Refused>
    ensures gives { Gives (λ x. (entry_seen x.0, x.1.now)) result (entry_at width above.now (entries_of before.now.pending) bytes.now) }
    ensures name { IfOk result (λ x. IsTrue (is_name x.0.name.now)) }
    ensures kind { IfOk result (λ x. is_dir x.0.rec.numbers.kind ≡ false) }
    ensures order { IfOk result (λ x. follows (entries_of before.now.pending) x.0.name.now ≡ true) }
{
    let (letter, rest) = u8_at(bytes)?;
    let Some(kind) = entry_kind(letter) else {
        return Err(flaw(bytes, ImageKind::Number));
    };
    let (name, rest) = name_at(rest, above)?;
    if !follows(before, name) {
        return Err(flaw(bytes, ImageKind::Order));
    }
    let (rec, rest) = record_at(rest, width, kind)?;
    Ok((EntryAt { name, rec }, rest))
}

/// Reads on to so many entries, in name order. After a fault the rest begins with the entry that has it.
///
/// The bytes of an entry go straight behind those of the others: none has memory of its own.
pub(crate) fn take_entries<'a>(
    rest: &mut &'a [u8],
    width: Width,
    above: &Above<'_>,
    count: u32,
    packing: &mut Packing,
) -> Result<(), Refused>
    requires { AreEntries (entries_of packing.old.pending) }
    ensures dirs { packing.new.dirs ≡ packing.old.dirs }
    ensures same { (more : List ℕ) → entries_from width above.now count (entries_of packing.old.pending) (rest.old.now ++ more) ≡ entries_from width above.now count (entries_of packing.new.pending) (rest.new.now ++ more) }
    ensures entries { AreEntries (entries_of packing.new.pending) }
    ensures few { length (entries_of packing.old.pending) ≤ count → length (entries_of packing.new.pending) ≤ count }
    ensures whole { OnOk result (count ≤ length (entries_of packing.new.pending)) }
    ensures halts { IfErr result (λ e. OnFlaw e (λ f. (more : List ℕ) → Stops f more (entries_from width above.now count (entries_of packing.new.pending) (rest.new.now ++ more)))) }
{
    'entries: while packing.pending_len() < count as usize {
        let (entry, after) = entry_at(*rest, width, above, packing)?;
        let meta = entry.rec.numbers.meta();
        packing.push(0, entry.name, &entry.rec.rec_ref(&meta))?;
        *rest = after;
    }
    Ok(())
}
