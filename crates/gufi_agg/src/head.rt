//! What an agg says up to FROM.
ghost use Rattle.std.specs.Prelude.{◌≡◌, IfOk};
ghost use Rattle.gufi_agg.specs.Faults.{Tells};
ghost use Rattle.gufi_agg.specs.Heads.{Head, head_fault, item_of, next_place, with_key, with_item, read_token, may_end, head_start, read_head};

use crate::agg::{AggKey, Item};
use crate::fault::{AggError, AggKind};
use crate::token::{AggToken, Function, Placed};
use gufi_base::capped_u32;
use std::alloc::{AllocError, Global};
use std::marker::Model;

/// What the next token may be.
#[derive(Clone, Copy)]
pub enum HeadPlace {
    SelectWord,
    Key,
    CommaOrFrom,
    Function,
    /// Behind a function.
    Open(Function),
    Argument(Function),
    /// Behind all else of an item.
    Close(Item),
}

/// What is wanted next, the key and its offset, and the items that were read.
#[derive(Drop)]
pub struct Head {
    place: HeadPlace,
    key: AggKey,
    key_at: usize,
    items: Vec<Item>,
}

impl Model for Head {
    ghost use Rattle.gufi_agg.specs.Heads.{Head};

    ghost Value = { Head };

    ghost view = { λ h. record { place = h.place; key = h.key; key_at = h.key_at; items = h.items.items } };
}

pub(crate) fn head_fault(offset: usize) -> AggError
    ensures { result ≡ head_fault offset }
{
    AggError::Fault {
        at: capped_u32(offset),
        kind: AggKind::Head,
    }
}

fn item_of(function: Function, token: AggToken) -> Option<Item>
    ensures { result ≡ item_of function token }
{
    match (function, token) {
        (Function::Count, AggToken::Star) => Some(Item::Count),
        (Function::Sum, AggToken::Size) => Some(Item::SumSize),
        (Function::Min, AggToken::Size) => Some(Item::MinSize),
        (Function::Max, AggToken::Size) => Some(Item::MaxSize),
        (Function::Min, AggToken::Mtime) => Some(Item::MinMtime),
        (Function::Max, AggToken::Mtime) => Some(Item::MaxMtime),
        _ => None,
    }
}

/// What is wanted behind a token, where it is allowed.
fn next_place(place: HeadPlace, token: AggToken) -> Option<HeadPlace>
    ensures { result ≡ next_place place token }
{
    match (place, token) {
        (HeadPlace::SelectWord, AggToken::Select) => Some(HeadPlace::Key),
        (HeadPlace::Key, AggToken::Key(_)) => Some(HeadPlace::CommaOrFrom),
        (HeadPlace::CommaOrFrom, AggToken::Comma) => Some(HeadPlace::Function),
        (HeadPlace::Function, AggToken::Function(function)) => Some(HeadPlace::Open(function)),
        (HeadPlace::Open(function), AggToken::Open) => Some(HeadPlace::Argument(function)),
        (HeadPlace::Argument(function), token) => match item_of(function, token) {
            Some(item) => Some(HeadPlace::Close(item)),
            None => None,
        },
        (HeadPlace::Close(_), AggToken::Close) => Some(HeadPlace::CommaOrFrom),
        _ => None,
    }
}

impl Head {
    fn new(alloc: Global) -> Head
        ensures { result ≡ head_start }
    {
        Head {
            place: HeadPlace::SelectWord,
            key: AggKey::Uid,
            key_at: 0,
            items: Vec::new(alloc),
        }
    }

    pub(crate) fn key(&self) -> AggKey
        ensures { result ≡ self.now.key }
    {
        self.key
    }

    pub(crate) fn key_at(&self) -> usize
        ensures { result ≡ self.now.key_at }
    {
        self.key_at
    }

    pub(crate) fn into_items(self) -> Vec<Item>
        ensures { result.items ≡ self.items }
    {
        self.items
    }

    /// The same with another place.
    fn wanting(self, place: HeadPlace) -> Head
        ensures { result ≡ record self { place = place } }
    {
        Head {
            place,
            key: self.key,
            key_at: self.key_at,
            items: self.items,
        }
    }

    /// An item is read with its `)`.
    fn with_item(self) -> Result<Head, AllocError>
        ensures { IfOk result (λ head. head ≡ with_item self.place self) }
    {
        let HeadPlace::Close(item) = self.place else {
            return Ok(self);
        };
        let mut items = self.items;
        items.push(item)?;
        Ok(Head {
            place: self.place,
            key: self.key,
            key_at: self.key_at,
            items,
        })
    }

    /// The key is read with its offset.
    fn with_key(self, placed: Placed) -> Head
        ensures { result ≡ with_key placed placed.token self }
    {
        let AggToken::Key(key) = placed.token else {
            return self;
        };
        Head {
            place: self.place,
            key,
            key_at: placed.offset,
            items: self.items,
        }
    }

    /// Behind the next token.
    fn with_token(self, placed: Placed) -> Result<Head, AggError>
        ensures { Tells result (read_token self placed) }
    {
        let Some(place) = next_place(self.place, placed.token) else {
            return Err(head_fault(placed.offset));
        };
        let head = self.with_item()?;
        Ok(head.with_key(placed).wanting(place))
    }

    /// Whether FROM is allowed here.
    fn may_end(&self) -> bool
        ensures { result ≡ may_end self.now.place }
    {
        matches!(self.place, HeadPlace::CommaOrFrom)
    }
}

/// What the tokens before FROM say, where that or the stop of reading has an offset.
pub(crate) fn read_head(alloc: Global, end: usize, placed: &[Placed]) -> Result<Head, AggError>
    ensures { Tells result (read_head end placed.now) }
{
    let mut head = Head::new(alloc);
    'tokens: for token in placed {
        head = match head.with_token(*token) {
            Ok(next) => next,
            Err(error) => return Err(error),
        };
    }
    if head.may_end() {
        Ok(head)
    } else {
        Err(head_fault(end))
    }
}
