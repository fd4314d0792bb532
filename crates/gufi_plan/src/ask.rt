//! The bytes of an ask's form and words.
ghost use Rattle.std.specs.Prelude.{◌≡◌, ◌↔◌, IsTrue, IfOk, OnOk};
ghost use Rattle.gufi_cache.specs.Asks.{ask_bytes};
ghost use Rattle.gufi_plan.specs.Plan.{letter_of};
ghost use Rattle.gufi_plan.specs.Asks.{AreShort};

use gufi_base::{Bytes, Memory};
use gufi_cache::ask_bytes;
use gufi_script::Form;
use std::alloc::Global;

/// The first letter of a form.
fn letter_of(form: Form) -> u8
    ensures { result ≡ letter_of form }
{
    match form {
        Form::Find => b'f',
        Form::Total => b't',
        Form::Query => b'q',
    }
}

fn are_short(words: &[Bytes]) -> bool
    ensures { IsTrue result ↔ AreShort words.now }
{
    words
        .iter()
        .all(|word| word.as_slice().len() <= u32::MAX as usize)
}

/// The bytes of an ask, by which a lane keeps its reply.
///
/// Their form gives the length of a word in four bytes. No script within its limit has a longer word; where there is one,
/// the answer is want of memory.
pub(crate) fn ask_of(alloc: Global, form: Form, words: &[Bytes]) -> Result<Bytes, Memory>
    ensures bytes { IfOk result (λ ask. ask ≡ ask_bytes (letter_of form) words.now) }
    ensures short { OnOk result (AreShort words.now) }
{
    if !are_short(words) {
        return Err(Memory);
    }
    let bytes = ask_bytes(alloc, letter_of(form), words)?;
    Ok(Bytes::of(bytes))
}
