//! A text that comes in two pieces.
ghost use Rattle.std.specs.Prelude.{◌≡◌, [], ◌∷◌, MatchOption};
ghost use Rattle.gufi_glob.specs.Joined.{joined};

/// What is left of a text in two pieces, which are never put together.
#[derive(Clone, Copy)]
pub(crate) struct Joined<'a> {
    pub(crate) front: &'a [u8],
    pub(crate) back: &'a [u8],
}

impl<'a> Joined<'a> {
    /// The first byte, and what is left behind it.
    #[inline]
    pub(crate) fn split_first(self) -> Option<(u8, Joined<'a>)>
        ensures { MatchOption result
            (joined self.entry ≡ [])
            (λ cut. joined self.entry ≡ cut.0 ∷ joined cut.1) }
    {
        let Joined { front, back } = self;
        match front {
            [first, rest @ ..] => Some((*first, Joined { front: rest, back })),
            [] => match back {
                [first, rest @ ..] => Some((*first, Joined { front, back: rest })),
                [] => None,
            },
        }
    }
}
