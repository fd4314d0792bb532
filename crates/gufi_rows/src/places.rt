//! Paths at places.

ghost use Rattle.std.specs.Prelude.{◌≡◌, ℕ, ◌<◌, ◌≤◌, ◌-◌, [], true, List, length, slice_index_or};
ghost use Rattle.gufi_base.specs.Paths.{Components, path_cmp};
ghost use Rattle.gufi_base.specs.PathParts.{ArePartsOf};
ghost use Rattle.gufi_rows.specs.PathPlaces.{AscendBetween};

use crate::spot::Parts;
use std::cmp::Ordering;

/// Paths at places, of which it is known where some ascend.
pub(crate) trait Places {
    /// The paths, by their places.
    ghost paths: { Self → List Components };

    /// How many places there are.
    fn count(&self) -> usize
        ensures { result ≡ length (paths self.now) };

    /// The parts of the path at a place; past the end they are those of the root.
    fn parts(&self, place: usize) -> Parts<'_>
        ensures { ArePartsOf result.stem.now result.base.now (slice_index_or (paths self.now) place []) };

    /// Whether a path is known to stand behind the one before it.
    fn follows(&self, place: usize) -> bool
        ensures { result ≡ true → (0 < place) × (path_cmp (slice_index_or (paths self.now) (place - 1) []) (slice_index_or (paths self.now) place []) ≡ Ordering.Less) };

    /// Where the paths cease to be known to ascend that begin at a place.
    fn stretch_end(&self, from: usize) -> usize
        requires { from < length (paths self.now) }
        ensures some { from < result }
        ensures within { result ≤ length (paths self.now) }
        ensures ascends { AscendBetween (paths self.now) from result };
}
