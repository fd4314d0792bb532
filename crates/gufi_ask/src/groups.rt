//! Groups of the rows that a principal lists: `agg`.
ghost use Rattle.std.specs.Prelude.{◌≡◌, ◌≢◌, ◌<◌, length, All, Some, None, IfOk, IfErr, OnOk};
ghost use Rattle.std.specs.Option.{option_copied};
ghost use Rattle.gufi_tree.specs.Resolve.{resolve};
ghost use Rattle.gufi_select.specs.Columns.{select_holds};
ghost use Rattle.gufi_agg.specs.Grouped.{grouped_rows, key_number};
ghost use Rattle.gufi_agg.specs.Texts.{agg_text};
ghost use Rattle.gufi_walk.specs.Answer.{answer, refusal_of};
ghost use Rattle.gufi_ask.specs.Asks.{agg_ask, ask_reply};
ghost use Rattle.gufi_ask.specs.Replies.{Replies};

use gufi_access::Principal;
use gufi_agg::{Agg, AggKey, Group, Groups, Letter, agg_text};
use gufi_base::{Memory, Path};
use gufi_io::Gate;
use gufi_prune::{Pruner, select_pruner};
use gufi_select::{Select, SelectQuestion};
use gufi_snap::Snapshot;
use gufi_stats::{Depth, Gid, RowNumber, Uid};
use gufi_users::Users;
use gufi_walk::{Refusal, Walkers, answer};
use std::alloc::Global;
use std::sync::Wait;
use std::thread::Threads;

/// The groups by a number of the rows that the principal lists from the start and that a SELECT chooses. No row is kept.
fn groups_by<K: RowNumber + Send + Sync, R: Threads + Wait + Sync, G: Gate + Sync>(
    walkers: &Walkers<'_, R, G>,
    alloc: Global,
    snap: &Snapshot,
    who: &Principal,
    start: &Path,
    select: &Select,
) -> Result<Vec<Group>, Refusal>
    ensures groups { IfOk result (λ groups. groups.items ≡ grouped_rows K.number (answer snap.now.tree who.now start.now (select_holds select.now))) }
    ensures found { OnOk result (refusal_of (resolve snap.now.tree who.now start.now) ≡ None) }
    ensures refusal { IfErr result (λ refusal. refusal ≢ Refusal.Memory → refusal_of (resolve snap.now.tree who.now start.now) ≡ Some refusal) }
{
    // The tree's count tells that the rows of an answer are few.
    let _tree = snap.tree();
    let skip = select_pruner(alloc, select)?;
    let chosen = select.question();
    match answer::<R, SelectQuestion<'_>, Groups<K>, Pruner, G>(
        walkers.rt,
        alloc,
        snap,
        who,
        start,
        &chosen,
        &skip,
        walkers.count,
        walkers.gate,
    ) {
        Ok(groups) => Ok(groups.sorted(alloc)?),
        Err(refusal) => Err(refusal),
    }
}

/// The groups that an agg asks for.
fn groups_of<R: Threads + Wait + Sync, G: Gate + Sync>(
    walkers: &Walkers<'_, R, G>,
    alloc: Global,
    snap: &Snapshot,
    who: &Principal,
    start: &Path,
    agg: &Agg,
) -> Result<Vec<Group>, Refusal>
    ensures groups { IfOk result (λ groups. groups.items ≡ grouped_rows (key_number agg.now.key) (answer snap.now.tree who.now start.now (select_holds agg.now.select))) }
    ensures found { OnOk result (refusal_of (resolve snap.now.tree who.now start.now) ≡ None) }
    ensures refusal { IfErr result (λ refusal. refusal ≢ Refusal.Memory → refusal_of (resolve snap.now.tree who.now start.now) ≡ Some refusal) }
{
    let select = agg.select();
    match agg.key() {
        AggKey::Uid => groups_by::<Uid, R, G>(walkers, alloc, snap, who, start, select),
        AggKey::Gid => groups_by::<Gid, R, G>(walkers, alloc, snap, who, start, select),
        AggKey::Letter => groups_by::<Letter, R, G>(walkers, alloc, snap, who, start, select),
        AggKey::Level => groups_by::<Depth, R, G>(walkers, alloc, snap, who, start, select),
    }
}

/// The lines of groups of rows below a start. A start as deep as no number of 32 bits tells is answered as want of memory.
fn lines_of_groups(
    alloc: Global,
    groups: &[Group],
    names: Option<&Users>,
    agg: &Agg,
    start: &Path,
) -> Result<Vec<u8>, Memory>
    requires letters { agg.now.key ≡ AggKey.Letter → All (λ group. group.key < 256) groups.now }
    ensures { IfOk result (λ text. text.items ≡ agg_text (option_copied names.entry) agg.now (length start.now) groups.now) }
{
    match u32::try_from(start.depth()) {
        Ok(above) => agg_text(alloc, groups, agg, above, names),
        Err(_) => Err(Memory),
    }
}

/// A line for each group of the rows that the principal lists from the start and that an agg chooses; with tables owners and groups
/// are named.
pub fn groups_text<R: Threads + Wait + Sync, G: Gate + Sync>(
    walkers: &Walkers<'_, R, G>,
    alloc: Global,
    snap: &Snapshot,
    who: &Principal,
    start: &Path,
    names: Option<&Users>,
    agg: &Agg,
) -> Result<Vec<u8>, Refusal>
    ensures { Replies result (ask_reply snap.now.tree who.now start.now (agg_ask (option_copied names.entry) agg.now)) }
{
    match groups_of(walkers, alloc, snap, who, start, agg) {
        Ok(groups) => Ok(lines_of_groups(alloc, &groups, names, agg, start)?),
        Err(refusal) => Err(refusal),
    }
}
