//! What a pattern is made of.
ghost use Rattle.std.specs.Prelude.{◌≡◌};
ghost use Rattle.gufi_glob.specs.KeptParts.{part_of, takes, is_any_text};

use crate::members::Members;

/// A part of a pattern.
#[derive(Drop)]
pub(crate) enum Part {
    /// Any text, also the empty one.
    AnyText,
    OneByte,
    /// This byte.
    Byte(u8),
    /// One of the members of a bracket.
    ByteIn(Members),
}

impl Part {
    /// Whether it is one byte, and matches this one.
    #[inline]
    pub(crate) fn takes(&self, byte: u8) -> bool
        ensures { result ≡ takes (part_of self.now) byte }
    {
        match self {
            Part::AnyText => false,
            Part::OneByte => true,
            Part::Byte(own) => *own == byte,
            Part::ByteIn(members) => members.has(byte),
        }
    }

    pub(crate) fn is_any_text(&self) -> bool
        ensures { result ≡ is_any_text (part_of self.now) }
    {
        matches!(self, Part::AnyText)
    }
}
