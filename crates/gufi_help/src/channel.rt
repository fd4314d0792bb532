//! Where a text goes: to a sink at once, or into memory until it is known how it is to be told.
ghost use Rattle.std.specs.Prelude.{◌≡◌, ◌<◌, ◌≤◌, Some, [], length, IfOk};
ghost use Rattle.std.specs.Io.KnownBytes.{WriteAppends};
ghost use Rattle.gufi_io.specs.Causes.{HasCause};

use gufi_io::{Failed, Sink};
use std::alloc::Global;

/// Bytes in memory. A piece for which there is none is lost, and counted.
#[derive(Drop)]
pub struct HeldText {
    pub bytes: Vec<u8>,
    pub lost: u64,
}

impl HeldText {
    fn new(alloc: Global) -> HeldText
        ensures bytes { result.bytes.items ≡ [] }
        ensures lost { result.lost ≡ 0 }
    {
        HeldText {
            bytes: Vec::new(alloc),
            lost: 0,
        }
    }

    // Takes a piece whole.
    fn write(&mut self, piece: &[u8]) -> Result<usize, Failed>
        requires { 0 < length piece.now }
        ensures some { IfOk result (λ n. 0 < n) }
        ensures bound { IfOk result (λ n. n ≤ length piece.now) }
        ensures bytes { WriteAppends (Some self.old.bytes.items) (Some self.new.bytes.items) result piece.now }
        ensures cause { HasCause self.old.lost self.new.lost result }
    {
        match self.bytes.extend_from_slice(piece) {
            Ok(()) => Ok(piece.len()),
            Err(_) => {
                self.lost = self.lost.saturating_add(1);
                Err(Failed)
            }
        }
    }
}

/// A sink, or what is held back of a text.
#[derive(Drop)]
pub enum Channel<K> {
    To(K),
    Held(HeldText),
}

impl<K: Sink> Channel<K> {
    ghost use Rattle.gufi_help.specs.Channels.{channel_taken, channel_faults, held_bytes, is_held_whole};

    /// A channel that holds back what it takes.
    pub(crate) fn holding(alloc: Global) -> Channel<K>
        ensures taken { channel_taken K.Sink result ≡ Some [] }
        ensures faults { channel_faults K.Sink result ≡ 0 }
    {
        Channel::Held(HeldText::new(alloc))
    }

    /// What is held back.
    pub(crate) fn held(&self) -> &[u8]
        ensures { result.now ≡ held_bytes self.now }
    {
        match self {
            Channel::To(_) => b"",
            Channel::Held(text) => &text.bytes,
        }
    }

    /// Whether all that came is held back.
    pub(crate) fn is_held_whole(&self) -> bool
        ensures { result ≡ is_held_whole self.now }
    {
        match self {
            Channel::To(_) => false,
            Channel::Held(text) => text.lost == 0,
        }
    }
}

impl<K: Sink> Sink for Channel<K> {
    ghost use Rattle.gufi_help.specs.Channels.{channel_taken, channel_faults};

    ghost taken = { channel_taken K.Sink };

    ghost faults = { channel_faults K.Sink };

    fn write(&mut self, piece: &[u8]) -> Result<usize, Failed> {
        match self {
            Channel::To(sink) => sink.write(piece),
            Channel::Held(text) => text.write(piece),
        }
    }
}
