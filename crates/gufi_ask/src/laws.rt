//! Laws of asks.
ghost use Rattle.gufi_ask.specs.Asks.{AsksArePrivate};

/// To one who can't tell two trees apart by what may be listed, each ask has one reply in both.
pub fn asks_are_private()
    ensures { AsksArePrivate }
{}
