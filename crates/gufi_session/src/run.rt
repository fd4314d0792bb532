//! The run of a plan.
ghost use Rattle.std.specs.Prelude.{◌≡◌, ◌≢◌, ◌≤◌, Some};
ghost use Rattle.gufi_io.specs.Files.{Files};
ghost use Rattle.gufi_io.specs.Kept.{Keeps};
ghost use Rattle.gufi_phases.specs.Loads.{EndHasCause};
ghost use Rattle.gufi_session.specs.Ends.{SessionEnded};
ghost use Rattle.gufi_session.specs.Hits.{session_hits};
ghost use Rattle.gufi_session.specs.Loading.{FailsBehind};

use crate::publishing::Publishing;
use crate::reply::{Asking, body_from};
use gufi_base::{Items, Memory};
use gufi_io::{Gate, Shelf, Sink};
use gufi_phases::{End, Ended};
use gufi_plan::{PlannedAct, SessionPlan};
use gufi_snap::Snapshot;
use gufi_walk::Walkers;
use std::alloc::Global;
use std::sync::Wait;
use std::thread::Threads;

/// Runs the phases of a plan one after the other, each written before the next.
///
/// Before a phase the files that it names are read in the order of its acts, a file once for each act that names it. In the phase
/// one thread carries out the publishing commands, and each lane its searches, in order; a lane that can't be started beside the
/// others runs in its turn. Each search pins one publication and is answered from that alone, by so many workers of its own, but
/// at least one and at most 32. A damaged trace is a line of the text. A publication is let go as soon as no search holds it and
/// it isn't the last. Each lane keeps so many of its last replies, and none where `cache` is 0; a search that comes again at the
/// same publication, with the same user, start and words, is answered by what its lane kept, and nobody walks.
pub fn run_session<R: Threads + Wait + Sync, F: Shelf, K: Sink, G: Gate + Sync>(
    rt: &R,
    alloc: Global,
    plan: &SessionPlan,
    workers: u32,
    cache: u32,
    shelf: &mut F,
    out: &mut K,
    gate: &G,
) -> Ended
    requires { cache ≤ 256 }
    ensures ended { SessionEnded (F.files shelf.old) plan.now (λ count. FailsBehind F.Shelf plan.now count shelf.old shelf.new) result.end result.numbers.items (K.taken out.old) (K.taken out.new) }
    ensures hits { (files : Files) → F.files shelf.old ≡ Some files → result.end ≡ End.Done → result.hits ≡ session_hits files plan.now cache result.numbers.items }
    ensures cause { EndHasCause F.Shelf shelf.old shelf.new K.Sink out.old out.new result.end }
    // No plan has more publishing commands than may be published.
    ensures never_full { result.end ≢ End.Full }
    ensures kept { Keeps F.Shelf shelf.old shelf.new }
{
    let walkers = Walkers::of(rt, gate, workers);
    // Three hold a publication: a search's pin, the publisher as long as it is the latest, and the loop over the phases as the
    // last one, which the next rollup or refresh takes. Where it is none of these any more, it is let go with the last of them.
    gufi_phases::run_session::<Snapshot, Publishing, Asking, _, F, Items<PlannedAct>, K, G, R>(
        rt,
        alloc,
        gate,
        &|asking: &Asking, text: Vec<u8>, snap: &Snapshot| -> Result<Vec<u8>, Memory> {
            body_from(&walkers, alloc, asking, text, snap)
        },
        cache,
        plan.phases(),
        shelf,
        out,
    )
}
