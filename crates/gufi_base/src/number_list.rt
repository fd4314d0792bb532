//! Numbers between commas.

ghost use Rattle.std.specs.Prelude.{◌≡◌, ℕ, IfOk, Vec, option_map};
ghost use Rattle.std.specs.declared.alloc.Global.{Global};
ghost use Rattle.gufi_base.specs.Numbers.{all_numbers};
ghost use Rattle.gufi_base.specs.Basics.{split};

use crate::number::read_u32;
use crate::piece::pieces_of;
use std::alloc::{AllocError, Global};

/// The numbers between single commas, where each is one below 2^32.
pub fn read_numbers(alloc: Global, bytes: &[u8]) -> Result<Option<Vec<u32>>, AllocError>
    ensures { IfOk result (λ numbers. option_map (λ (v : Vec ℕ Global). v.items) numbers ≡ all_numbers (split 44 bytes.now)) }
{
    let mut numbers = Vec::new(alloc);
    'numbers: for piece in pieces_of(bytes, b",") {
        let Some(number) = read_u32(piece) else {
            return Ok(None);
        };
        numbers.push(number)?;
    }
    Ok(Some(numbers))
}
