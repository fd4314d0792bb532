//! Places of a list that stand one behind the other.

ghost use Rattle.std.specs.Prelude.{◌<◌};

/// The places from one to another, one at least.
#[derive(Clone, Copy)]
pub struct Stretch {
    pub from: usize,
    pub end: usize,
    ghost some: { from < end },
}
