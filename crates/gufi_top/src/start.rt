//! What is written of a start, or why it can't be walked from.
ghost use Rattle.std.specs.Prelude.{◌≡◌, ◌≢◌, ℕ, List, [], Result, Err, IfErr};
ghost use Rattle.gufi_walk.specs.declared.refusal.Refusal.{Refusal as SeenRefusal};
ghost use Rattle.gufi_top.specs.Reasons.{start_reason};
ghost use Rattle.gufi_top.specs.Verdict.{replied};
ghost use Rattle.gufi_top.specs.Views.{text_view};
ghost use Rattle.gufi_ask.specs.Replies.{Replies};
ghost use Rattle.gufi_top.specs.Calls.{Gives, IsOfBytes, IsPastWords};

use crate::halt::{Halt, Output, refused};
use crate::note;
use gufi_snap::Snapshot;
use gufi_walk::Refusal;
use std::alloc::Global;
use std::mem::forget;

/// The refusal of a start.
pub(crate) fn refuse_start<T>(alloc: Global, refusal: Refusal) -> Result<T, Halt>
    ensures reason { refusal ≢ Refusal.Memory → Gives (λ (x : T). x) result (Err (start_reason refusal)) }
    ensures memory { refusal ≡ Refusal.Memory → result ≡ Err Halt.Memory }
    ensures of_bytes { IfErr result IsOfBytes }
    ensures past_words { IfErr result IsPastWords }
{
    match refusal {
        Refusal::Memory => Err(Halt::Memory),
        _ => refused(1, note::start_refused(alloc, refusal)?),
    }
}

/// A text alone, without a note.
pub(crate) fn text_alone(alloc: Global, out: Vec<u8>) -> Output
    ensures { (result.out.items ≡ out.items) × (result.notes.items ≡ []) }
{
    Output {
        out,
        notes: Vec::new(alloc),
    }
}

/// What a reply writes: its text, or the note of its start's refusal.
#[tactic(auto, using(crate::proofs::ReplyLemmas::writing))]
pub(crate) fn written(alloc: Global, reply: Result<Vec<u8>, Refusal>) -> Result<Output, Halt>
    ensures text { (given : Result (List ℕ) SeenRefusal) → Replies reply given → Gives text_view result (replied given) }
    ensures of_bytes { IfErr result IsOfBytes }
    ensures past_words { IfErr result IsPastWords }
{
    match reply {
        Ok(out) => Ok(text_alone(alloc, out)),
        Err(refusal) => refuse_start(alloc, refusal),
    }
}

/// The same of a reply over a snapshot.
///
/// The snapshot isn't given back, since the run ends soon: part by part that would take a tenth of its time.
pub(crate) fn written_over(
    alloc: Global,
    snap: Snapshot,
    reply: Result<Vec<u8>, Refusal>,
) -> Result<Output, Halt>
    ensures text { (given : Result (List ℕ) SeenRefusal) → Replies reply given → Gives text_view result (replied given) }
    ensures of_bytes { IfErr result IsOfBytes }
    ensures past_words { IfErr result IsPastWords }
{
    forget(snap);
    written(alloc, reply)
}
