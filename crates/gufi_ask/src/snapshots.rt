//! Snapshots of one run: with sums where a question asks for them, and given back where memory is wanted.
ghost use Rattle.std.specs.Prelude.{◌≡◌, IfOk};

use gufi_access::Principal;
use gufi_base::Memory;
use gufi_find::FindExpr;
use gufi_prune::{find_pruner, select_pruner};
use gufi_select::Select;
use gufi_snap::Snapshot;
use gufi_sums::Skip;
use std::alloc::Global;
use std::mem::forget;

/// From how many rows on a text is so long that the snapshot is given back before it is made.
const MANY: usize = 65_536;

/// Gives a snapshot back where many rows are to be printed, which no longer need it. Else it is left as it is, since the run
/// ends soon: part by part that would take a tenth of its time.
pub(crate) fn make_room(snap: Snapshot, rows: usize) {
    if rows < MANY {
        forget(snap);
    }
}

/// The snapshot, with sums where what passes over rows asks for them, and uid 0 asks, for whom all of them may be looked at. Who else
/// asks is answered by sums of what he lists alone, each of which is looked at once, and made then.
fn with_sums_for<S: Skip>(
    alloc: Global,
    snap: Snapshot,
    who: &Principal,
    skip: &S,
) -> Result<Snapshot, Memory>
    ensures { IfOk result (λ same. same ≡ snap) }
{
    if who.uid == 0 && skip.asks_sums() {
        return snap.with_sums(alloc);
    }
    Ok(snap)
}

/// The snapshot, with sums where they may tell uid 0 that rows needn't be looked at for an expression.
pub fn ready_to_find(
    alloc: Global,
    snap: Snapshot,
    who: &Principal,
    expression: &FindExpr,
) -> Result<Snapshot, Memory>
    ensures { IfOk result (λ same. same ≡ snap) }
{
    let skip = find_pruner(alloc, expression)?;
    with_sums_for(alloc, snap, who, &skip)
}

/// The same for a SELECT.
pub fn ready_to_select(
    alloc: Global,
    snap: Snapshot,
    who: &Principal,
    select: &Select,
) -> Result<Snapshot, Memory>
    ensures { IfOk result (λ same. same ≡ snap) }
{
    let skip = select_pruner(alloc, select)?;
    with_sums_for(alloc, snap, who, &skip)
}
