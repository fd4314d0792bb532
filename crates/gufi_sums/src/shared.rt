//! Two sums for each directory.

ghost use Rattle.std.specs.Prelude.{◌≡◌, ◌<◌, ◌≤◌, ◌++◌, ◌∷◌, [], length, take, drop, slice_index_or, slice_set, IsTrue, IfOk, OnOk};
ghost use Rattle.gufi_sums.specs.declared.summary.Summary.{Summary as Sum};

use crate::blocks::{
    Block, Slots, add_sum, join_blocks, kept_in, splice_slots, sum_at, used_blocks,
};
use crate::summary::Summary;
use gufi_base::u32_of;
use std::alloc::{AllocError, Global};
use std::marker::Model;
use std::sync::Arc;

/// How many sums are kept for each directory, at most, beside `SPARE`: it has two.
const MOST: usize = 3;

/// How many sums may be kept beside those: some that no directory has are cheaper than a copy of all.
const SPARE: usize = 4096;

/// Two sums for each directory, by its place: of its own rows, and of the rows at and below it.
///
/// They stand in blocks that such lists share. A directory without others below it has one sum for both.
#[derive(Drop)]
pub struct SharedSums {
    blocks: Vec<Arc<Block, Global>>,
    last: Vec<Summary>,
    slots: Vec<Slots>,
}

impl Model for SharedSums {
    ghost use Rattle.std.specs.Prelude.{All};
    ghost use Rattle.gufi_sums.specs.SumLists.{SumLists};
    ghost use Rattle.gufi_sums.specs.Blocks.{lists_of, sums_in, BothStand};

    ghost Value = { SumLists };

    ghost view = { λ s. sums_in (lists_of s.blocks.items s.last.items) s.slots.items };

    ghost invariant = { λ s. All (BothStand (lists_of s.blocks.items s.last.items)) s.slots.items };
}

impl SharedSums {
    /// No sum.
    pub fn new(alloc: Global) -> SharedSums
        ensures { result ≡ record { own = []; below = [] } }
    {
        SharedSums {
            blocks: Vec::new(alloc),
            last: Vec::new(alloc),
            slots: Vec::new(alloc),
        }
    }

    /// How many directories have sums.
    pub fn len(&self) -> usize
        ensures own { result ≡ length self.now.own }
        ensures below { result ≡ length self.now.below }
    {
        self.slots.len()
    }

    /// The sum of a directory's own rows. `O(1)`.
    #[inline]
    pub fn own(&self, place: usize) -> &Summary
        requires { place < length self.now.own }
        ensures { (s : Sum) → result.now ≡ slice_index_or self.now.own place s }
    {
        let both = self.slots[place];
        sum_at(self.blocks.as_slice(), self.last.as_slice(), both.own)
    }

    /// The sum of the rows at and below a directory. `O(1)`.
    #[inline]
    pub fn below(&self, place: usize) -> &Summary
        requires { place < length self.now.below }
        ensures { (s : Sum) → result.now ≡ slice_index_or self.now.below place s }
    {
        let both = self.slots[place];
        sum_at(self.blocks.as_slice(), self.last.as_slice(), both.below)
    }

    /// Adds the sum of a directory's own rows, and the same one for the rows at and below it.
    pub fn push(&mut self, alloc: Global, sum: Summary) -> Result<(), AllocError>
        ensures { OnOk result (self.new ≡ record { own = self.old.own ++ sum ∷ []; below = self.old.below ++ sum ∷ [] }) }
    {
        let slot = add_sum(alloc, &mut self.blocks, &mut self.last, sum)?;
        self.slots.push(Slots {
            own: slot,
            below: slot,
        })?;
        Ok(())
    }

    /// Puts another sum of the rows at and below a directory.
    pub fn put_below(&mut self, alloc: Global, place: usize, sum: Summary) -> Result<(), AllocError>
        requires { place < length self.old.below }
        ensures { OnOk result (self.new ≡ record { own = self.old.own; below = slice_set self.old.below place sum }) }
    {
        let below = add_sum(alloc, &mut self.blocks, &mut self.last, sum)?;
        let Slots { own, .. } = self.slots[place];
        self.slots[place] = Slots { own, below };
        Ok(())
    }

    /// How many sums are kept, with those that no directory has any more. Linear in the blocks.
    fn kept(&self) -> usize {
        kept_in(self.blocks.as_slice()).saturating_add(self.last.len())
    }

    /// Whether both sums of a directory are one.
    fn is_one(&self, place: usize) -> bool
        requires { place < length self.now.own }
        ensures { IsTrue result → ((s : Sum) → slice_index_or self.now.own place s ≡ slice_index_or self.now.below place s) }
    {
        let Slots { own, below } = self.slots[place];
        own.is_at(below)
    }

    /// Adds both sums of a directory of others.
    fn push_both(
        &mut self,
        alloc: Global,
        from: &SharedSums,
        place: usize,
    ) -> Result<(), AllocError>
        requires own { place < length from.now.own }
        requires below { place < length from.now.below }
        ensures { OnOk result ((s : Sum) → self.new ≡ record { own = self.old.own ++ slice_index_or from.now.own place s ∷ []; below = self.old.below ++ slice_index_or from.now.below place s ∷ [] }) }
    {
        let last = self.len();
        self.push(alloc, *from.own(place))?;
        if from.is_one(place) {
            return Ok(());
        }
        self.put_below(alloc, last, *from.below(place))
    }

    /// The same sums in blocks of their own, where each is one that a directory has.
    fn again(&self, alloc: Global) -> Result<SharedSums, AllocError>
        ensures { IfOk result (λ again. again ≡ self.now) }
    {
        let mut again = SharedSums::new(alloc);
        for place in 0..self.len() {
            again.push_both(alloc, self, place)?;
        }
        Ok(again)
    }

    /// The sums in which those between two places are replaced by others, in blocks that are shared, but for two that are copied.
    fn joined(
        &self,
        alloc: Global,
        at: usize,
        end: usize,
        part: &SharedSums,
    ) -> Result<SharedSums, AllocError>
        requires order { at ≤ end }
        requires within { end ≤ length self.now.own }
        ensures { IfOk result (λ sums. sums ≡ record {
          own = take at self.now.own ++ (part.now.own ++ drop end self.now.own);
          below = take at self.now.below ++ (part.now.below ++ drop end self.now.below);
        }) }
    {
        let by = u32_of(self.blocks.len() + 1)?;
        let slots = splice_slots(
            alloc,
            self.slots.as_slice(),
            at,
            end,
            part.slots.as_slice(),
            by,
        )?;
        let joined = join_blocks(
            alloc,
            self.blocks.as_slice(),
            self.last.as_slice(),
            part.blocks.as_slice(),
        )?;
        let last = Vec::from_slice(alloc, part.last.as_slice())?;
        let blocks = used_blocks(alloc, joined.as_slice(), last.as_slice(), slots.as_slice())?;
        Ok(SharedSums {
            blocks,
            last,
            slots,
        })
    }

    /// The sums in which those between two places are replaced by others.
    ///
    /// Blocks are shared, but for two that are copied; those in which no sum is any more are let go. Linear in the places. Where more sums are
    /// kept than three a directory and some more, all are copied: so one a directory was added since they were last.
    pub fn spliced(
        &self,
        alloc: Global,
        at: usize,
        end: usize,
        part: &SharedSums,
    ) -> Result<SharedSums, AllocError>
        requires order { at ≤ end }
        requires within { end ≤ length self.now.own }
        ensures { IfOk result (λ sums. sums ≡ record {
          own = take at self.now.own ++ (part.now.own ++ drop end self.now.own);
          below = take at self.now.below ++ (part.now.below ++ drop end self.now.below);
        }) }
    {
        let sums = self.joined(alloc, at, end, part)?;
        if sums.kept() > sums.len().saturating_mul(MOST).saturating_add(SPARE) {
            sums.again(alloc)
        } else {
            Ok(sums)
        }
    }
}
