//! Many groups in ascending order, which are searched by halving.
ghost use Rattle.std.specs.Prelude.{◌≡◌, IfOk};
ghost use Rattle.std.specs.List.Sorted.{IsNonDecreasing};
ghost use Rattle.gufi_access.specs.Access.{is_member};
ghost use Rattle.gufi_access.specs.Indexed.{IsIndexOf};

use std::alloc::{AllocError, Global};

/// The same numbers in ascending order. Sorts them once.
pub(crate) fn index_of(alloc: Global, items: &[u32]) -> Result<Vec<u32>, AllocError>
    ensures { IfOk result (λ index. IsIndexOf items.now index.items) }
{
    let mut index = Vec::from_slice(alloc, items)?;
    index.sort_unstable();
    Ok(index)
}

/// Whether a number stands among ascending ones, in O(log n) steps.
pub(crate) fn stands_in(index: &[u32], gid: u32) -> bool
    requires { IsNonDecreasing index.now }
    ensures { result ≡ is_member index.now gid }
{
    index.binary_search(&gid).is_ok()
}
