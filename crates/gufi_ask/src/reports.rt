//! Reports over the rows that a principal lists: `stats`.
ghost use Rattle.std.specs.Prelude.{◌≡◌, ◌≢◌, true, Option, Some, None, IfOk, IfErr, OnOk};
ghost use Rattle.std.specs.Option.{option_copied};
ghost use Rattle.gufi_tree.specs.Resolve.{resolve};
ghost use Rattle.gufi_users.specs.Entries.{UserTables};
ghost use Rattle.gufi_stats.specs.Grouped.{grouped};
ghost use Rattle.gufi_walk.specs.Answer.{answer, refusal_of};
ghost use Rattle.gufi_ask.specs.Asks.{stats_ask, ask_reply};
ghost use Rattle.gufi_ask.specs.Replies.{Replies};

use gufi_access::Principal;
use gufi_base::{Always, Path};
use gufi_io::Gate;
use gufi_snap::Snapshot;
use gufi_stats::{
    Counts, Depth, Directories, Gid, Report, RowNumber, Uid, gids_text, leaves_text, levels_text,
    uids_text,
};
use gufi_sums::NoSkip;
use gufi_users::Users;
use gufi_walk::{Refusal, Walkers, answer, answer_rows};
use std::alloc::Global;
use std::sync::Wait;
use std::thread::Threads;

/// The counts by a number of all rows that the principal lists from the start. No row is kept.
fn counts_from<K: RowNumber + Send + Sync, R: Threads + Wait + Sync, G: Gate + Sync>(
    walkers: &Walkers<'_, R, G>,
    alloc: Global,
    snap: &Snapshot,
    who: &Principal,
    start: &Path,
) -> Result<Counts<K>, Refusal>
    ensures counts { IfOk result (λ counts. counts ≡ grouped K.number (answer snap.now.tree who.now start.now (λ row depth. true))) }
    ensures found { OnOk result (refusal_of (resolve snap.now.tree who.now start.now) ≡ None) }
    ensures refusal { IfErr result (λ refusal. refusal ≢ Refusal.Memory → refusal_of (resolve snap.now.tree who.now start.now) ≡ Some refusal) }
{
    answer::<R, Always, Counts<K>, NoSkip, G>(
        walkers.rt,
        alloc,
        snap,
        who,
        start,
        &Always,
        &NoSkip,
        walkers.count,
        walkers.gate,
    )
}

/// The report of the leaves among the directories that the principal lists from the start.
fn leaves_from<R: Threads + Wait + Sync, G: Gate + Sync>(
    walkers: &Walkers<'_, R, G>,
    alloc: Global,
    snap: &Snapshot,
    who: &Principal,
    start: &Path,
) -> Result<Vec<u8>, Refusal>
    ensures { (names : Option UserTables) → Replies result (ask_reply snap.now.tree who.now start.now (stats_ask names Report.Leaves)) }
{
    // The tree's shape tells that the rows of an answer are in path order.
    let _tree = snap.tree();
    match answer_rows(walkers, alloc, snap, who, start, &Directories, &NoSkip) {
        Ok(rows) => Ok(leaves_text(alloc, &rows)?),
        Err(refusal) => Err(refusal),
    }
}

/// A report over all rows that the principal lists from the start; with tables owners and groups are named.
pub fn report_text<R: Threads + Wait + Sync, G: Gate + Sync>(
    walkers: &Walkers<'_, R, G>,
    alloc: Global,
    snap: &Snapshot,
    who: &Principal,
    start: &Path,
    names: Option<&Users>,
    report: Report,
) -> Result<Vec<u8>, Refusal>
    ensures { Replies result (ask_reply snap.now.tree who.now start.now (stats_ask (option_copied names.entry) report)) }
{
    // The tree's count tells that the rows of an answer are few.
    let _tree = snap.tree();
    match report {
        Report::Levels => match counts_from::<Depth, R, G>(walkers, alloc, snap, who, start) {
            Ok(counts) => Ok(levels_text(alloc, counts, start)?),
            Err(refusal) => Err(refusal),
        },
        Report::Uids => match counts_from::<Uid, R, G>(walkers, alloc, snap, who, start) {
            Ok(counts) => Ok(uids_text(alloc, counts, names)?),
            Err(refusal) => Err(refusal),
        },
        Report::Gids => match counts_from::<Gid, R, G>(walkers, alloc, snap, who, start) {
            Ok(counts) => Ok(gids_text(alloc, counts, names)?),
            Err(refusal) => Err(refusal),
        },
        Report::Leaves => leaves_from(walkers, alloc, snap, who, start),
    }
}
