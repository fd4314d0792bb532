//! The paths of runs, by their places.

ghost use Rattle.std.specs.Prelude.{◌≡◌, ◌+◌, ◌<◌, ◌≤◌, ◌++◌, [], length, take, All, IfOk, OnOk};
ghost use Rattle.gufi_rows.specs.LaidLines.{lines_of};
ghost use Rattle.gufi_rows.specs.PathLists.{picked};
ghost use Rattle.gufi_rows.specs.PathPlaces.{places_between, places_of};
ghost use Rattle.gufi_rows.specs.Runs.{AreEnds, IsAt, run_paths};

use crate::places::Places;
use crate::run::Run;
use crate::spot::Parts;
use crate::stretch::Stretch;
use gufi_base::Memory;
use std::alloc::Global;

/// The paths of runs, one run behind the other, and at which place each run ends.
#[derive(Drop)]
pub(crate) struct RunPlaces<'a> {
    runs: &'a [Run],
    ends: Vec<usize>,
    ghost are: { AreEnds runs.now ends.items },
}

/// In which run a place stands, and the places from which and to which that has its paths.
#[derive(Clone, Copy)]
pub(crate) struct Whereabouts {
    run: usize,
    from: usize,
    end: usize,
}

/// At which place each run ends.
fn ends_of(alloc: Global, runs: &[Run]) -> Result<Vec<usize>, Memory>
    ensures { IfOk result (λ ends. AreEnds runs.now ends.items) }
{
    let mut ends = Vec::with_capacity(alloc, runs.len())?;
    let mut total: usize = 0;
    for run in runs {
        total = match total.checked_add(run.lines.len()) {
            Some(more) => more,
            None => return Err(Memory),
        };
        ends.push(total)?;
    }
    Ok(ends)
}

impl<'a> RunPlaces<'a> {
    pub(crate) fn of(alloc: Global, runs: &'a [Run]) -> Result<RunPlaces<'a>, Memory>
        ensures { IfOk result (λ places. places.runs.now ≡ runs.now) }
    {
        let ends = ends_of(alloc, runs)?;
        Ok(RunPlaces { runs, ends })
    }

    /// The run in which a place stands. `O(log n)` in the number of runs.
    fn run_at(&self, place: usize) -> usize
        requires { place < length (run_paths self.now.runs.now) }
        ensures within { result < length self.now.runs.now }
        ensures low { length (run_paths (take result self.now.runs.now)) ≤ place }
        ensures high { place < length (run_paths (take (result + 1) self.now.runs.now)) }
    {
        let mut low = 0;
        let mut high = self.runs.len();
        'halving: while low < high {
            let middle = low + (high - low) / 2;
            if self.ends[middle] <= place {
                low = middle + 1;
            } else {
                high = middle;
            }
        }
        low
    }

    /// Where a place stands.
    fn find(&self, place: usize) -> Whereabouts
        requires { place < length (run_paths self.now.runs.now) }
        ensures { IsAt self.now.runs.now place result }
    {
        let run = self.run_at(place);
        let from = if run == 0 { 0 } else { self.ends[run - 1] };
        let end = self.ends[run];
        Whereabouts { run, from, end }
    }

    /// How many bytes the lines have, where that is a number of 64 bits.
    pub(crate) fn bytes(&self) -> usize {
        let mut total: usize = 0;
        for run in self.runs {
            total = total.saturating_add(run.lines.bytes());
        }
        total
    }

    /// Adds the lines of a stretch: those of one run are copied at once.
    fn put_stretch(&self, text: &mut Vec<u8>, stretch: Stretch) -> Result<(), Memory>
        requires { stretch.end ≤ length (run_paths self.now.runs.now) }
        ensures { OnOk result (text.new.items ≡ text.old.items ++ lines_of (picked (run_paths self.now.runs.now) [] (places_between stretch.from stretch.end))) }
    {
        let mut from = stretch.from;
        'runs: while from < stretch.end {
            let at = self.find(from);
            let end = stretch.end.min(at.end);
            let run = &self.runs[at.run];
            text.extend_from_slice(run.lines.between(from - at.from, end - at.from))?;
            from = end;
        }
        Ok(())
    }

    /// Adds the lines of stretches.
    pub(crate) fn put_stretches(
        &self,
        text: &mut Vec<u8>,
        stretches: &[Stretch],
    ) -> Result<(), Memory>
        requires { All (λ stretch. stretch.end ≤ length (run_paths self.now.runs.now)) stretches.now }
        ensures { OnOk result (text.new.items ≡ text.old.items ++ lines_of (picked (run_paths self.now.runs.now) [] (places_of stretches.now))) }
    {
        for stretch in stretches {
            self.put_stretch(text, *stretch)?;
        }
        Ok(())
    }
}

impl<'a> Places for RunPlaces<'a> {
    ghost paths = { λ p. run_paths p.runs.now };

    fn count(&self) -> usize {
        if self.ends.is_empty() {
            return 0;
        }
        self.ends[self.ends.len() - 1]
    }

    fn parts(&self, place: usize) -> Parts<'_> {
        if place >= self.count() {
            return Parts {
                stem: &[],
                base: b"/".as_slice(),
            };
        }
        let at = self.find(place);
        self.runs[at.run].lines.parts_at(place - at.from)
    }

    fn follows(&self, _place: usize) -> bool {
        false
    }

    fn stretch_end(&self, from: usize) -> usize {
        let at = self.find(from);
        // The paths of a run ascend.
        let _run = &self.runs[at.run];
        at.end
    }
}
