//! Where a query starts.

ghost use Rattle.std.specs.Prelude.{◌≡◌, ◌<◌, true, Some, length, IfOk, IfErr};
ghost use Rattle.gufi_tree.specs.Places.{path_at};
ghost use Rattle.gufi_tree.specs.Resolve.{resolve};
ghost use Rattle.gufi_walk.specs.Answer.{refusal_of};
ghost use Rattle.gufi_walk.specs.Walk.{lists_at};

use crate::refusal::Refusal;
use gufi_access::Principal;
use gufi_base::Path;
use gufi_snap::Snapshot;
use gufi_tree::{DirId, Resolved};

/// The directory at a start, which the principal may list, or the refusal of the start.
///
/// `O(log n)` comparisons for each component of the start.
pub fn found_start(snap: &Snapshot, who: &Principal, start: &Path) -> Result<DirId, Refusal>
    ensures found { IfOk result (λ id. resolve snap.now.tree who.now start.now ≡ Resolved.Found id) }
    ensures within { IfOk result (λ id. id.0 < length snap.now.tree) }
    ensures path { IfOk result (λ id. path_at snap.now.tree id.0 ≡ start.now) }
    ensures listed { IfOk result (λ id. lists_at snap.now.tree who.now (path_at snap.now.tree id.0) ≡ true) }
    ensures refusal { IfErr result (λ refusal. refusal_of (resolve snap.now.tree who.now start.now) ≡ Some refusal) }
{
    match snap.tree().resolve(who, start) {
        Resolved::Found(id) => Ok(id),
        Resolved::Denied { depth, class } => Err(Refusal::Denied { depth, class }),
        Resolved::NoSuch { depth } => Err(Refusal::NoSuch { depth }),
        Resolved::NotDir { depth } => Err(Refusal::NotDir { depth }),
    }
}
