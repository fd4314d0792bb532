//! Sums side by side in blocks, which lists of sums share.

ghost use Rattle.std.specs.Prelude.{◌≡◌, ◌<◌, ◌≤◌, ◌++◌, ◌∷◌, [], length, map, take, drop, slice_index_or, true, false, All, IsTrue, IfOk, OnOk};
ghost use Rattle.std.specs.Arc.{arc_value};
ghost use Rattle.gufi_sums.specs.Blocks.{lists_of, sum_at, sums_in, moved, both_moved, Stands, BothStand, Keep, AreWithin, AreMarked, StayMarked, AreKept};

use crate::summary::Summary;
use gufi_base::u32_of;
use std::alloc::{AllocError, Global};
use std::marker::Model;
use std::mem;
use std::sync::Arc;

/// How many sums a block has before the next one begins.
const ENOUGH: usize = 256;

/// The number of a block, and which of its sums.
#[derive(Clone, Copy)]
pub(crate) struct Slot {
    block: u32,
    at: u32,
}

impl Slot {
    /// Whether it is the same one.
    pub(crate) fn is_at(self, other: Slot) -> bool
        ensures { IsTrue result → self ≡ other }
    {
        self.block == other.block && self.at == other.at
    }
}

/// Where the two sums of a directory are: of its own rows, and of the rows at and below it.
#[derive(Clone, Copy)]
pub(crate) struct Slots {
    pub(crate) own: Slot,
    pub(crate) below: Slot,
}

/// Sums side by side. Contracts see their list.
#[derive(Drop)]
pub(crate) struct Block {
    sums: Vec<Summary>,
}

impl Model for Block {
    ghost use Rattle.std.specs.Prelude.{List};
    ghost use Rattle.gufi_sums.specs.declared.summary.Summary.{Summary};

    ghost Value = { List Summary };

    ghost view = { λ b. b.sums.items };
}

impl Block {
    /// The same sums, in memory of their own.
    fn of(alloc: Global, sums: &[Summary]) -> Result<Block, AllocError>
        ensures { IfOk result (λ block. block ≡ sums.now) }
    {
        Ok(Block {
            sums: Vec::from_slice(alloc, sums)?,
        })
    }

    #[inline]
    fn as_slice(&self) -> &[Summary]
        ensures { result.now ≡ self.now }
    {
        self.sums.as_slice()
    }
}

/// The sums of a block; the last one stands behind the others.
#[inline]
fn block_at<'a>(blocks: &'a [Arc<Block, Global>], last: &'a [Summary], number: u32) -> &'a [Summary]
    requires { number < length (lists_of blocks.now last.now) }
    ensures { result.now ≡ slice_index_or (lists_of blocks.now last.now) number [] }
{
    let number = number as usize;
    if number < blocks.len() {
        let block: &Block = &blocks[number];
        block.as_slice()
    } else {
        last
    }
}

/// The sum in a slot.
#[inline]
pub(crate) fn sum_at<'a>(
    blocks: &'a [Arc<Block, Global>],
    last: &'a [Summary],
    slot: Slot,
) -> &'a Summary
    requires { Stands (lists_of blocks.now last.now) slot }
    ensures { result.now ≡ sum_at (lists_of blocks.now last.now) slot }
{
    let sums = block_at(blocks, last, slot.block);
    &sums[slot.at as usize]
}

/// Puts the last block's sums behind the other blocks, and begins the last one anew, where it has enough.
fn make_room(
    alloc: Global,
    blocks: &mut Vec<Arc<Block, Global>>,
    last: &mut Vec<Summary>,
) -> Result<(), AllocError>
    ensures { Keep (lists_of blocks.old.items last.old.items) (lists_of blocks.new.items last.new.items) }
{
    if last.len() < ENOUGH {
        return Ok(());
    }
    last.shrink_to_fit();
    let fresh = Vec::with_capacity(alloc, ENOUGH)?;
    blocks.reserve(1)?;
    let sums = mem::replace(last, fresh);
    match Arc::new(alloc, Block { sums }) {
        Ok(block) => {
            blocks.push_reserved(block);
            Ok(())
        }
        Err(failed) => {
            *last = failed.value.sums;
            Err(AllocError)
        }
    }
}

/// Puts a sum behind those of the last block.
fn push_last(
    blocks: &[Arc<Block, Global>],
    last: &mut Vec<Summary>,
    sum: Summary,
) -> Result<Slot, AllocError>
    ensures keep { Keep (lists_of blocks.now last.old.items) (lists_of blocks.now last.new.items) }
    ensures stands { IfOk result (Stands (lists_of blocks.now last.new.items)) }
    ensures sum { IfOk result (λ slot. sum_at (lists_of blocks.now last.new.items) slot ≡ sum) }
{
    let block = u32_of(blocks.len())?;
    let at = u32_of(last.len())?;
    last.push(sum)?;
    Ok(Slot { block, at })
}

/// Adds a sum, and tells its slot.
pub(crate) fn add_sum(
    alloc: Global,
    blocks: &mut Vec<Arc<Block, Global>>,
    last: &mut Vec<Summary>,
    sum: Summary,
) -> Result<Slot, AllocError>
    ensures keep { Keep (lists_of blocks.old.items last.old.items) (lists_of blocks.new.items last.new.items) }
    ensures stands { IfOk result (Stands (lists_of blocks.new.items last.new.items)) }
    ensures sum { IfOk result (λ slot. sum_at (lists_of blocks.new.items last.new.items) slot ≡ sum) }
{
    make_room(alloc, blocks, last)?;
    push_last(blocks.as_slice(), last, sum)
}

/// How many sums blocks have, and one for each block: an empty one takes memory too.
pub(crate) fn kept_in(blocks: &[Arc<Block, Global>]) -> usize {
    let mut kept = 0usize;
    for block in blocks {
        kept = kept
            .saturating_add(block.as_slice().len())
            .saturating_add(1);
    }
    kept
}

/// Blocks, shared once more, behind others.
fn share_behind(
    blocks: &mut Vec<Arc<Block, Global>>,
    more: &[Arc<Block, Global>],
) -> Result<(), AllocError>
    ensures { OnOk result (map arc_value blocks.new.items ≡ map arc_value blocks.old.items ++ map arc_value more.now) }
{
    for block in more {
        blocks.push(Arc::try_clone(block)?)?;
    }
    Ok(())
}

/// Blocks and their last one, and others behind them, shared once more.
pub(crate) fn join_blocks(
    alloc: Global,
    blocks: &[Arc<Block, Global>],
    last: &[Summary],
    more: &[Arc<Block, Global>],
) -> Result<Vec<Arc<Block, Global>>, AllocError>
    ensures { IfOk result (λ joined. map arc_value joined.items ≡ lists_of blocks.now last.now ++ map arc_value more.now) }
{
    let mut joined = Vec::new(alloc);
    share_behind(&mut joined, blocks)?;
    let last = Block::of(alloc, last)?;
    joined.push(Arc::new(alloc, last)?)?;
    share_behind(&mut joined, more)?;
    Ok(joined)
}

/// The slot, so many blocks on.
fn slot_behind(slot: Slot, by: u32) -> Result<Slot, AllocError>
    ensures { IfOk result (λ behind. behind ≡ moved by slot) }
{
    match slot.block.checked_add(by) {
        Some(block) => Ok(Slot { block, at: slot.at }),
        None => Err(AllocError),
    }
}

/// Adds slots, each moved so many blocks on.
fn push_moved(slots: &mut Vec<Slots>, more: &[Slots], by: u32) -> Result<(), AllocError>
    ensures { OnOk result (slots.new.items ≡ slots.old.items ++ map (both_moved by) more.now) }
{
    for both in more {
        let own = slot_behind(both.own, by)?;
        let below = slot_behind(both.below, by)?;
        slots.push(Slots { own, below })?;
    }
    Ok(())
}

/// Slots, of which those between two places are replaced by others, moved so many blocks on.
pub(crate) fn splice_slots(
    alloc: Global,
    slots: &[Slots],
    at: usize,
    end: usize,
    more: &[Slots],
    by: u32,
) -> Result<Vec<Slots>, AllocError>
    requires order { at ≤ end }
    requires within { end ≤ length slots.now }
    ensures { IfOk result (λ spliced. spliced.items ≡ take at slots.now ++ (map (both_moved by) more.now ++ drop end slots.now)) }
{
    let mut spliced = Vec::with_capacity(alloc, slots.len())?;
    spliced.extend_from_slice(&slots[..at])?;
    push_moved(&mut spliced, more, by)?;
    spliced.extend_from_slice(&slots[end..])?;
    Ok(spliced)
}

/// Marks a block.
fn mark_block(marks: &mut Vec<bool>, block: u32)
    requires { block < length marks.old.items }
    ensures len { length marks.new.items ≡ length marks.old.items }
    ensures marked { slice_index_or marks.new.items block false ≡ true }
    ensures others { StayMarked marks.old.items marks.new.items }
{
    marks[block as usize] = true;
}

/// Marks the blocks in which slots are.
fn mark(marks: &mut Vec<bool>, slots: &[Slots])
    requires { All (AreWithin (length marks.old.items)) slots.now }
    ensures len { length marks.new.items ≡ length marks.old.items }
    ensures marked { All (AreMarked marks.new.items) slots.now }
{
    for both in slots {
        mark_block(marks, both.own.block);
        mark_block(marks, both.below.block);
    }
}

/// Shares a block once more where it is marked, and else another.
fn share_marked(
    block: &Arc<Block, Global>,
    none: &Arc<Block, Global>,
    marked: bool,
) -> Result<Arc<Block, Global>, AllocError>
    ensures { IfOk result (λ shared. marked ≡ true → arc_value shared ≡ arc_value block.now) }
{
    if marked {
        Arc::try_clone(block)
    } else {
        Arc::try_clone(none)
    }
}

/// The blocks that are marked, each at its number.
fn marked_blocks(
    alloc: Global,
    blocks: &[Arc<Block, Global>],
    marks: &[bool],
) -> Result<Vec<Arc<Block, Global>>, AllocError>
    requires { length blocks.now ≤ length marks.now }
    ensures { IfOk result (λ kept. AreKept (map arc_value blocks.now) marks.now (map arc_value kept.items) (length blocks.now)) }
{
    let none = Arc::new(
        alloc,
        Block {
            sums: Vec::new(alloc),
        },
    )?;
    let mut kept = Vec::with_capacity(alloc, blocks.len())?;
    for number in 0..blocks.len() {
        kept.push(share_marked(&blocks[number], &none, marks[number])?)?;
    }
    Ok(kept)
}

/// The blocks in which slots are, each at its number; the others are let go.
pub(crate) fn used_blocks(
    alloc: Global,
    blocks: &[Arc<Block, Global>],
    last: &[Summary],
    slots: &[Slots],
) -> Result<Vec<Arc<Block, Global>>, AllocError>
    requires { All (BothStand (lists_of blocks.now last.now)) slots.now }
    ensures sums { IfOk result (λ used. sums_in (lists_of used.items last.now) slots.now ≡ sums_in (lists_of blocks.now last.now) slots.now) }
    ensures stand { IfOk result (λ used. All (BothStand (lists_of used.items last.now)) slots.now) }
{
    let mut marks = vec![in alloc; false; blocks.len() + 1]?;
    mark(&mut marks, slots);
    marked_blocks(alloc, blocks, marks.as_slice())
}
