//! What is written of a phase.
ghost use Rattle.std.specs.Prelude.{◌≡◌, ℕ, ◌+◌, ◌<◌, ◌≤◌, List, [], ◌++◌, map, length, All, Some, None, IfOk, OnOk, IfSome, slice_index_or};
ghost use Rattle.std.specs.List.{HoldsAt};
ghost use Rattle.gufi_phases.specs.Keeping.{Keeping};
ghost use Rattle.gufi_phases.specs.Lanes.{AreNumbered, IsInterleavedAct, IsLaneRow, IsRowWithin, IsServed, IsTold, joined, places_of, row_of};

use crate::act::{Act, Wanted};
use crate::answer::{Answer, Row, Served};
use gufi_base::Memory;
use gufi_hub::Meaning;
use std::alloc::Global;

/// The rows of all visitors' lanes, where each had memory and none saw more than `number`.
pub(crate) fn gather<T: Drop, M: Meaning<T>, C: Drop, Q: Wanted<T> + Drop>(
    alloc: Global,
    all: Vec<Result<Served, Memory>>,
    number: u64,
) -> Result<Vec<Row>, Memory>
    ensures { (before : ℕ → Keeping) (i low : ℕ) (acts : List (Act C Q)) → All (λ r. IfOk r (IsServed M.means Q.reply Q.head Q.key Q.body before i low acts)) all.items
        → IfOk result (λ rows. All (λ row. IsRowWithin low number acts row.places.items × IsLaneRow M.means Q.reply Q.head Q.key Q.body before i acts row) rows.items) }
{
    let mut rows = Vec::new(alloc);
    for served in all {
        let mut served = served?;
        if served.seen > number {
            return Err(Memory);
        }
        rows.append(&mut served.rows)?;
    }
    Ok(rows)
}

/// Where the row of the lane of a number is.
fn place_of(rows: &[Row], number: u32) -> Option<usize>
    ensures { IfSome result (λ at. (at < length rows.now) × HoldsAt (λ row. row.lane.number ≡ number) rows.now at) }
{
    rows.iter().position(|row| row.lane.number == number)
}

/// The rows of the lanes from 1 up to `count`, in their order.
pub(crate) fn in_order<T: Drop, M: Meaning<T>, C: Drop, Q: Wanted<T> + Drop>(
    alloc: Global,
    rows: Vec<Row>,
    count: u32,
) -> Result<Vec<Row>, Memory>
    ensures numbers { IfOk result (λ ordered. AreNumbered 1 ordered.items × (length ordered.items ≡ count)) }
    ensures rows { (before : ℕ → Keeping) (i low high : ℕ) (acts : List (Act C Q)) → All (λ row. IsRowWithin low high acts row.places.items × IsLaneRow M.means Q.reply Q.head Q.key Q.body before i acts row) rows.items
        → IfOk result (λ ordered. All (λ row. IsRowWithin low high acts row.places.items × IsLaneRow M.means Q.reply Q.head Q.key Q.body before i acts row) ordered.items) }
{
    let mut rows = rows;
    let mut ordered = Vec::with_capacity(alloc, count as usize)?;
    for number in 0..count {
        let Some(at) = place_of(&rows, number + 1) else {
            return Err(Memory);
        };
        ordered.push(rows.swap_remove(at))?;
    }
    Ok(ordered)
}

/// The answer at a place of a lane's row.
fn answer_at<'a>(rows: &'a [Row], lane: u32, at: usize) -> Option<&'a Answer>
    ensures { IfSome result (λ answer. slice_index_or (row_of (places_of rows.now) lane) at None ≡ Some answer.now) }
{
    if lane == 0 {
        return None;
    }
    let row = rows.get(lane as usize - 1)?;
    row.places.get(at)?.as_ref()
}

/// The line of an act.
fn line_at(lines: &[Vec<u8>], at: usize) -> Option<&[u8]>
    ensures { IfSome result (λ line. slice_index_or (map (λ l. l.items) lines.now) at [] ≡ line.now) }
{
    match lines.get(at) {
        Some(line) => Some(line.as_slice()),
        None => None,
    }
}

/// Adds what is written of one act, and whether it is a hit.
fn interleave_act<'a, C: Drop, Q: Drop>(
    rows: &'a [Row],
    lines: &'a [Vec<u8>],
    act: &Act<C, Q>,
    at: usize,
    numbers: &mut Vec<u64>,
    parts: &mut Vec<&'a [u8]>,
) -> Result<u64, Memory>
    ensures added { IfOk result (λ hits. (more : List ℕ) × (added : List ℕ) × (numbers.new.items ≡ numbers.old.items ++ more) × (joined parts.new.items ≡ joined parts.old.items ++ added)
        × IsInterleavedAct at (row_of (places_of rows.now)) (slice_index_or (map (λ l. l.items) lines.now) at []) act.now more hits added) }
    ensures few { IfOk result (λ hits. hits ≤ 1) }
{
    match act {
        Act::Publish { .. } => match line_at(lines, at) {
            Some(line) => {
                parts.push(line)?;
                Ok(0)
            }
            None => Err(Memory),
        },
        Act::Ask { lane, .. } => match answer_at(rows, *lane, at) {
            Some(answer) => {
                numbers.push(answer.number)?;
                parts.push(answer.text.as_slice())?;
                Ok(u64::from(answer.hit))
            }
            None => Err(Memory),
        },
    }
}

/// The numbers of the asks, how many are hits, and the texts of the acts, in their order. No text is copied.
pub(crate) fn interleave<'a, C: Drop, Q: Drop>(
    alloc: Global,
    rows: &'a [Row],
    lines: &'a [Vec<u8>],
    acts: &[Act<C, Q>],
) -> Result<(Vec<u64>, u64, Vec<&'a [u8]>), Memory>
    ensures acts { IfOk result (λ r. IsTold rows.now lines.now acts.now r.0.items r.1 (joined r.2.items)) }
    ensures few { IfOk result (λ r. r.1 ≤ length acts.now) }
{
    let mut numbers = Vec::new(alloc);
    let mut parts = Vec::new(alloc);
    let mut hits = 0u64;
    for at in 0..acts.len() {
        let hit = interleave_act(rows, lines, &acts[at], at, &mut numbers, &mut parts)?;
        hits = hits + hit;
    }
    Ok((numbers, hits, parts))
}
