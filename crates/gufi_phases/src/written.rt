//! What a phase came to, written: texts, one behind the other.
ghost use Rattle.std.specs.Prelude.{◌≡◌, ◌≤◌, ◌++◌, length, map, IfOk, IfErr, IfSome, OnOk, OnErr};
ghost use Rattle.std.specs.Io.KnownBytes.{Appends};
ghost use Rattle.gufi_io.specs.Causes.{Rose};
ghost use Rattle.gufi_io.specs.Files.{TakesFront};
ghost use Rattle.gufi_phases.specs.Lanes.{joined};
ghost use Rattle.gufi_phases.specs.Loads.{IsWritten, IsCutOff, CutHasCause};

use crate::act::Act;
use crate::answer::Row;
use crate::keeping::Lane;
use crate::phase::{Phase, lanes_behind};
use crate::replies::interleave;
use crate::session::End;
use gufi_base::Memory;
use gufi_io::{Sink, WriteFault, write_whole};
use std::alloc::Global;
use std::sync::Arc;

/// Texts that have fewer bytes than this on average are joined before they are written: one large write costs less than many small ones.
const SHORT: usize = 4096;

/// Whether texts have few bytes on average.
fn are_short(parts: &[&[u8]]) -> bool {
    let mut bytes = 0usize;
    for part in parts {
        bytes = bytes.saturating_add(part.len());
    }
    bytes / SHORT < parts.len()
}

/// The texts, one behind the other.
fn join_texts(alloc: Global, parts: &[&[u8]]) -> Result<Vec<u8>, Memory>
    ensures { IfOk result (λ text. text.items ≡ joined parts.now) }
{
    let mut text = Vec::new(alloc);
    for part in parts {
        text.extend_from_slice(part)?;
    }
    Ok(text)
}

/// The texts in one, where they are short.
fn joined_if_short(alloc: Global, parts: &[&[u8]]) -> Result<Option<Vec<u8>>, Memory>
    ensures { IfOk result (λ whole. IfSome whole (λ text. text.items ≡ joined parts.now)) }
{
    if !are_short(parts) {
        return Ok(None);
    }
    let text = join_texts(alloc, parts)?;
    Ok(Some(text))
}

/// Writes texts one behind the other, none of them copied. After a fault a front of them all was taken.
fn write_parts<K: Sink>(sink: &mut K, parts: &[&[u8]]) -> Result<(), WriteFault>
    ensures ok { OnOk result (Appends (K.taken sink.old) (K.taken sink.new) (joined parts.now)) }
    ensures err { OnErr result (TakesFront (K.taken sink.old) (K.taken sink.new) (joined parts.now)) }
    ensures cause { OnErr result (Rose (K.faults sink.old) (K.faults sink.new)) }
    ensures faults { K.faults sink.old ≤ K.faults sink.new }
{
    for part in parts {
        write_whole(sink, part)?;
    }
    Ok(())
}

/// Writes texts one behind the other, in one where they were joined. After a fault a front of them all was taken.
fn write_texts<K: Sink>(
    sink: &mut K,
    parts: &[&[u8]],
    whole: Option<Vec<u8>>,
) -> Result<(), WriteFault>
    requires { IfSome whole (λ text. text.items ≡ joined parts.now) }
    ensures ok { OnOk result (Appends (K.taken sink.old) (K.taken sink.new) (joined parts.now)) }
    ensures err { OnErr result (TakesFront (K.taken sink.old) (K.taken sink.new) (joined parts.now)) }
    ensures cause { OnErr result (Rose (K.faults sink.old) (K.faults sink.new)) }
    ensures faults { K.faults sink.old ≤ K.faults sink.new }
{
    match whole {
        Some(text) => write_whole(sink, &text),
        None => write_parts(sink, parts),
    }
}

/// Writes the texts of a phase's acts in their order, puts the numbers of its asks behind the others, and gives how many of these are
/// hits. The numbers belong to the text of which a front was taken where writing it failed.
fn write_acts<C: Drop, Q: Drop, K: Sink>(
    alloc: Global,
    rows: &[Row],
    lines: &[Vec<u8>],
    acts: &[Act<C, Q>],
    numbers: &mut Vec<u64>,
    out: &mut K,
) -> Result<u64, End>
    ensures written { IfOk result (IsWritten rows.now lines.now acts.now numbers.old.items numbers.new.items (K.taken out.old) (K.taken out.new)) }
    ensures few { IfOk result (λ hits. hits ≤ length acts.now) }
    ensures cut { IfErr result (IsCutOff rows.now lines.now acts.now numbers.old.items numbers.new.items (K.taken out.old) (K.taken out.new)) }
    ensures cause { IfErr result (CutHasCause (K.faults out.old) (K.faults out.new)) }
    ensures faults { K.faults out.old ≤ K.faults out.new }
{
    let Ok((own, hits, parts)) = interleave(alloc, rows, lines, acts) else {
        return Err(End::Memory);
    };
    let Ok(whole) = joined_if_short(alloc, &parts) else {
        return Err(End::Memory);
    };
    let Ok(()) = numbers.extend_from_slice(&own) else {
        return Err(End::Memory);
    };
    let Ok(()) = write_texts(out, &parts, whole) else {
        return Err(End::WriteFault);
    };
    Ok(hits)
}

/// What stands behind a phase that is written: the last publication, the lanes, and how many of its asks were hits.
#[derive(Drop)]
pub(crate) struct Behind<T: Drop> {
    pub(crate) last: Option<Arc<T>>,
    pub(crate) lanes: Vec<Lane>,
    pub(crate) hits: u64,
}

/// Writes what a phase came to, and gives what stands behind it. The numbers belong to the text of which a front was taken where
/// writing it failed.
pub(crate) fn write_phase<T: Drop, C: Drop, Q: Drop, K: Sink>(
    alloc: Global,
    phase: Phase<T>,
    acts: &[Act<C, Q>],
    numbers: &mut Vec<u64>,
    out: &mut K,
) -> Result<Behind<T>, End>
    ensures written { IfOk result (λ behind. IsWritten phase.rows.items phase.lines.items acts.now numbers.old.items numbers.new.items (K.taken out.old) (K.taken out.new) behind.hits) }
    ensures few { IfOk result (λ behind. behind.hits ≤ length acts.now) }
    ensures last { IfOk result (λ behind. behind.last ≡ phase.last) }
    ensures lanes { IfOk result (λ behind. behind.lanes.items ≡ map (λ row. row.lane) phase.rows.items ++ phase.idle.items) }
    ensures cut { IfErr result (IsCutOff phase.rows.items phase.lines.items acts.now numbers.old.items numbers.new.items (K.taken out.old) (K.taken out.new)) }
    ensures cause { IfErr result (CutHasCause (K.faults out.old) (K.faults out.new)) }
    ensures faults { K.faults out.old ≤ K.faults out.new }
{
    let Phase {
        rows,
        lines,
        last,
        idle,
    } = phase;
    let written = write_acts(alloc, &rows, &lines, acts, numbers, out);
    drop(lines);
    let hits = match written {
        Ok(hits) => hits,
        Err(end) => {
            drop(rows);
            drop(idle);
            drop(last);
            return Err(end);
        }
    };
    match lanes_behind(alloc, rows, idle) {
        Ok(lanes) => Ok(Behind { last, lanes, hits }),
        Err(_) => {
            drop(last);
            Err(End::Memory)
        }
    }
}
