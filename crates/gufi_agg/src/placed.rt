//! The tokens of an agg, with their offsets.
ghost use Rattle.std.specs.Prelude.{◌≡◌, IfOk};
ghost use Rattle.gufi_select.specs.Tokens.{tokens};
ghost use Rattle.gufi_agg.specs.AggTokens.{placed_in, stop_in};

use crate::token::{Placed, agg_token_of, stops};
use gufi_base::{behind, split_first};
use gufi_select::{front_token, is_blank};
use std::alloc::{AllocError, Global};

/// The tokens up to where reading stopped, and that offset.
#[derive(Drop)]
pub struct Tokens {
    pub placed: Vec<Placed>,
    pub stop: usize,
}

/// The tokens up to where reading stops.
pub(crate) fn tokens_of(alloc: Global, text: &[u8]) -> Result<Tokens, AllocError>
    ensures placed { IfOk result (λ t. t.placed.items ≡ placed_in text.now (tokens text.now)) }
    ensures stop { IfOk result (λ t. t.stop ≡ stop_in text.now (tokens text.now)) }
{
    let mut placed = Vec::new(alloc);
    let mut rest = text;
    'bytes: while let Some((first, others)) = split_first(rest) {
        if is_blank(*first) {
            rest = others;
            continue 'bytes;
        }
        let front = front_token(alloc, *first, others, rest)?;
        let offset = text.len() - rest.len();
        if stops(&front.token) {
            return Ok(Tokens {
                placed,
                stop: offset,
            });
        }
        placed.push(Placed {
            offset,
            token: agg_token_of(&front.token, rest),
        })?;
        rest = behind(others, front.size.saturating_sub(1));
    }
    Ok(Tokens {
        placed,
        stop: text.len(),
    })
}
