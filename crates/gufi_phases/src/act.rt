//! What a phase carries out.
ghost use Rattle.std.specs.Prelude.{◌≡◌, ◌++◌, ℕ, List, Option, Some, None, Result, Ok, Err, IfOk, option_map};
ghost use Rattle.std.specs.Arc.{arc_value};
ghost use Rattle.gufi_phases.specs.Made.{made_of};

use gufi_base::Memory;
use gufi_cache::CacheKey;
use std::alloc::Global;
use std::sync::Arc;

/// One act of a phase: a publishing command, or an ask of a lane. Lanes are 1 to 16; an ask of any other is answered as want
/// of memory.
#[derive(Drop)]
pub enum Act<C: Drop, Q: Drop> {
    Publish { command: C },
    Ask { lane: u32, question: Q },
}

/// What a command came to: an item to publish, or why there is none.
#[derive(Drop)]
pub enum Made<T: Drop> {
    Added { item: T },
    Refused { text: Vec<u8> },
}

/// A publishing command: it makes an item of the last one, or tells why there is none.
pub trait Command<T: Drop>: Sync {
    /// What it comes to behind the last publication.
    ghost outcome: { Self → Option T → Result T (List ℕ) };

    /// The reply line of the command of a number, with the number of its publication or its refusal.
    ghost line: { Self → ℕ → Result ℕ (List ℕ) → List ℕ };

    /// Makes the item. It runs in the publishing thread, beside the lanes.
    fn carry_out(&self, alloc: Global, last: &Option<Arc<T>>) -> Result<Made<T>, Memory>
        ensures { IfOk result (λ made. made_of made ≡ outcome self.now (option_map arc_value last.now)) };

    /// The line of a command whose item was published.
    fn added_line(&self, alloc: Global, command: u32, number: u64) -> Result<Vec<u8>, Memory>
        ensures { IfOk result (λ text. text.items ≡ line self.now command (Ok number)) };

    /// The line of a command that made no item.
    fn refused_line(&self, alloc: Global, command: u32, text: &[u8]) -> Result<Vec<u8>, Memory>
        ensures { IfOk result (λ line_text. line_text.items ≡ line self.now command (Err text.now)) };
}

/// What an ask wants of a published item. What follows the head of its reply is made by a call beside it, which may start
/// threads of its own, as a method of a trait may not.
pub trait Wanted<T: Drop>: Sync {
    ghost use Rattle.gufi_cache.specs.declared.key.CacheKey.{CacheKey};

    /// The reply to the ask of a number at the number of a publication, which is none at 0.
    ghost reply: { Self → ℕ → ℕ → Option T → List ℕ };

    /// How a reply from an item begins: by the ask's number and that of the publication.
    ghost head: { ℕ → ℕ → List ℕ };

    /// What follows the head.
    ghost body: { Self → T → List ℕ };

    /// What a body is kept under, at the number of a publication.
    ghost key: { Self → ℕ → CacheKey };

    /// A reply from an item is its head, and then the body.
    ghost parts: { (question : Self) (ask number : ℕ) (item : T) → reply question ask number (Some item) ≡ head ask number ++ body question item };

    /// A key tells its number.
    ghost numbers: { (question : Self) (number : ℕ) → (key question number).number ≡ number };

    /// The head of a reply.
    fn put_head(&self, alloc: Global, ask: u32, number: u64) -> Result<Vec<u8>, Memory>
        ensures { IfOk result (λ text. text.items ≡ head ask number) };

    /// What the body is kept under.
    fn kept_under(&self, alloc: Global, number: u64) -> Result<CacheKey, Memory>
        ensures { IfOk result (λ found. found ≡ key self.now number) };

    /// The reply where nothing was published yet.
    fn reply_to_none(&self, alloc: Global, ask: u32) -> Result<Vec<u8>, Memory>
        ensures { IfOk result (λ text. text.items ≡ reply self.now ask 0 None) };
}
