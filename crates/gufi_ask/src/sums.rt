//! Sums of the rows that a principal lists: `stat` and totals.
ghost use Rattle.std.specs.Prelude.{◌≡◌, IfOk};
ghost use Rattle.gufi_ask.specs.Asks.{stat_ask, total_ask, total_line, ask_reply};
ghost use Rattle.gufi_ask.specs.Replies.{Replies};

use gufi_access::Principal;
use gufi_base::{Memory, Path};
use gufi_list::{stat_text, total_text};
use gufi_snap::Snapshot;
use gufi_sums::Summary;
use gufi_walk::{Refusal, answer_total, found_start, total_from};
use std::alloc::Global;

/// A sum behind the name of whom it is for.
fn named_total(alloc: Global, name: &[u8], sum: &Summary) -> Result<Vec<u8>, Memory>
    ensures { IfOk result (λ text. text.items ≡ total_line name.now sum.now) }
{
    let total = total_text(alloc, sum)?;
    let mut text = Vec::from_slice(alloc, name)?;
    text.push(b' ')?;
    text.extend_from_slice(&total)?;
    text.push(b'\n')?;
    Ok(text)
}

/// The sum of all rows that the principal lists from the start, behind his name.
pub fn total_for(
    alloc: Global,
    snap: &Snapshot,
    who: &Principal,
    start: &Path,
    name: &[u8],
) -> Result<Vec<u8>, Refusal>
    ensures { Replies result (ask_reply snap.now.tree who.now start.now (total_ask name.now)) }
{
    match answer_total(alloc, snap, who, start) {
        Ok(sum) => Ok(named_total(alloc, name, &sum)?),
        Err(refusal) => Err(refusal),
    }
}

/// The start's record, and the sum of all rows that the principal lists from it.
pub fn record_text(
    alloc: Global,
    snap: &Snapshot,
    who: &Principal,
    start: &Path,
) -> Result<Vec<u8>, Refusal>
    ensures { Replies result (ask_reply snap.now.tree who.now start.now stat_ask) }
{
    match found_start(snap, who, start) {
        Ok(id) => {
            let sum = total_from(alloc, snap, who, id)?;
            let dir = snap.tree().dir(id);
            Ok(stat_text(alloc, &dir.path(), &dir.rec(), &sum)?)
        }
        Err(refusal) => Err(refusal),
    }
}
