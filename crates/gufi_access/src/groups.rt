//! The groups of a principal.
ghost use Rattle.std.specs.Prelude.{◌≡◌, IfOk};

use crate::index::{index_of, stands_in};
use std::alloc::{AllocError, Global};
use std::marker::Model;

/// So many groups are searched in order; more have an index.
const FEW: usize = 16;

/// The groups of a principal, seen as the list of their numbers.
///
/// The list stays as it was given. Many groups can keep an ascending copy beside it, by which a look-up takes O(log n) steps.
#[derive(Drop)]
pub struct GroupList {
    items: Vec<u32>,
    index: Option<Vec<u32>>,
}

impl Model for GroupList {
    ghost use Rattle.std.specs.Prelude.{List, ℕ, IfSome};

    ghost Value = { List ℕ };

    ghost use Rattle.gufi_access.specs.Indexed.{IsIndexOf};

    ghost view = { λ g. g.items.items };

    ghost invariant = { λ g. IfSome g.index (λ index. IsIndexOf g.items.items index.items) };
}

impl GroupList {
    ghost use Rattle.gufi_access.specs.Access.{is_member};

    /// These groups, which are searched in order. Takes no memory.
    pub fn of(items: Vec<u32>) -> GroupList
        ensures { result ≡ items.items }
    {
        GroupList { items, index: None }
    }

    /// These groups, with an index where they are more than 16.
    pub fn indexed(alloc: Global, items: Vec<u32>) -> Result<GroupList, AllocError>
        ensures { IfOk result (λ groups. groups ≡ items.items) }
    {
        if items.len() <= FEW {
            return Ok(GroupList::of(items));
        }
        let index = index_of(alloc, &items)?;
        Ok(GroupList {
            items,
            index: Some(index),
        })
    }

    /// Whether a group is among these.
    pub fn has(&self, gid: u32) -> bool
        ensures { result ≡ is_member self.now gid }
    {
        match &self.index {
            Some(index) => stands_in(index, gid),
            None => self.items.contains(&gid),
        }
    }

    pub fn as_slice(&self) -> &[u32]
        ensures { result.now ≡ self.now }
    {
        &self.items
    }

    pub fn into_vec(self) -> Vec<u32>
        ensures { result.items ≡ self }
    {
        self.items
    }
}
