//! The bytes of an ask.

ghost use Rattle.std.specs.Prelude.{◌≡◌, ◌++◌, ◌<◌, ◌^◌, length, IfOk};
ghost use Rattle.std.specs.List.{All};
ghost use Rattle.gufi_cache.specs.Asks.{ask_bytes, word_bytes};

use gufi_base::{Bytes, Memory};
use std::alloc::Global;

/// The bytes of an ask: the first letter of its form, and then each word, preceded by its length as u32 little endian.
pub fn ask_bytes(alloc: Global, letter: u8, words: &[Bytes]) -> Result<Vec<u8>, Memory>
    requires { All (λ word. length word < 2 ^ 32) words.now }
    ensures { IfOk result (λ bytes. bytes.items ≡ ask_bytes letter words.now) }
{
    let mut bytes = Vec::new(alloc);
    bytes.push(letter)?;
    for word in words {
        put_word(&mut bytes, word.as_slice())?;
    }
    Ok(bytes)
}

fn put_word(bytes: &mut Vec<u8>, word: &[u8]) -> Result<(), Memory>
    requires { length word.now < 2 ^ 32 }
    ensures { IfOk result (λ _. bytes.new.items ≡ bytes.old.items ++ word_bytes word.now) }
{
    bytes.extend_from_slice(&(word.len() as u32).to_le_bytes())?;
    bytes.extend_from_slice(word)?;
    Ok(())
}
