//! Principals that are written as numbers.
ghost use Rattle.std.specs.Prelude.{◌≡◌, None, option_map, IfOk, MatchOption, Vec, ℕ};
ghost use Rattle.std.specs.declared.alloc.Global.{Global};
ghost use Rattle.gufi_base.specs.Numbers.{read_u32};
ghost use Rattle.gufi_base.specs.Basics.{split};
ghost use Rattle.gufi_users.specs.Users.{group_numbers, numbered_principal, principal_from};

use gufi_access::{GroupList, Principal};
use gufi_base::{Pieces, pieces_of, read_numbers, read_u32};
use std::alloc::{AllocError, Global};

// The texts of `UID` or `UID:GROUPS`, where no groups are an empty text.
#[derive(Clone, Copy)]
struct NumberTexts<'a> {
    uid: &'a [u8],
    groups: &'a [u8],
}

/// The principal that the word writes as `UID`, or `UID:` and no groups or some.
pub(crate) fn numbered(alloc: Global, word: &[u8]) -> Result<Option<Principal>, AllocError>
    ensures { IfOk result (λ who. who ≡ numbered_principal (split 58 word.now)) }
{
    let Some(texts) = number_texts(word) else {
        return Ok(None);
    };
    let Some(uid) = read_u32(texts.uid) else {
        return Ok(None);
    };
    match read_groups(alloc, texts.groups)? {
        Some(groups) => Ok(Some(Principal {
            uid,
            groups: GroupList::indexed(alloc, groups)?,
        })),
        None => Ok(None),
    }
}

fn number_texts(word: &[u8]) -> Option<NumberTexts<'_>>
    ensures { MatchOption result
        (numbered_principal (split 58 word.now) ≡ None)
        (λ texts. numbered_principal (split 58 word.now) ≡ principal_from (read_u32 texts.uid.now) (group_numbers texts.groups.now)) }
{
    let mut parts = pieces_of(word, b":");
    take_number_texts(&mut parts)
}

fn take_number_texts<'a>(parts: &mut Pieces<'a, '_>) -> Option<NumberTexts<'a>>
    ensures { MatchOption result
        (numbered_principal parts.old ≡ None)
        (λ texts. numbered_principal parts.old ≡ principal_from (read_u32 texts.uid.now) (group_numbers texts.groups.now)) }
{
    let uid = parts.next()?;
    let Some(groups) = parts.next() else {
        return Some(NumberTexts { uid, groups: b"" });
    };
    if parts.next().is_some() {
        return None;
    }
    Some(NumberTexts { uid, groups })
}

// The numbers between single commas, or none in an empty text.
fn read_groups(alloc: Global, text: &[u8]) -> Result<Option<Vec<u32>>, AllocError>
    ensures { IfOk result (λ groups. option_map (λ (v : Vec ℕ Global). v.items) groups ≡ group_numbers text.now) }
{
    if text.is_empty() {
        return Ok(Some(Vec::new(alloc)));
    }
    read_numbers(alloc, text)
}
