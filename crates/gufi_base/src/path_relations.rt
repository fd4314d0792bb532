//! Whether a path begins with another, and what is left of it.

ghost use Rattle.std.specs.Prelude.{◌≡◌, ◌≢◌, ℕ, List, [], ◌∷◌, ◌++◌, IsTrue, IfSome, Ok, MatchOption};
ghost use Rattle.std.specs.List.{list_all};
ghost use Rattle.gufi_base.specs.Basics.{split};
ghost use Rattle.gufi_base.specs.Names.{is_name};
ghost use Rattle.gufi_base.specs.Paths.{read_path, is_prefix};
ghost use Rattle.gufi_base.specs.PathTexts.{names, IsText};

use crate::name::is_name;
use crate::order::{common_front, same_bytes};
use crate::path_parts::behind_last_slash;
use crate::plain::{are_plain_or_one, is_within_limits};

/// What is left of a text behind a front.
fn behind<'a>(text: &'a [u8], front: &[u8]) -> Option<&'a [u8]>
    ensures { MatchOption result ((rest : List ℕ) → text.now ≢ front.now ++ rest) (λ rest. text.now ≡ front.now ++ rest.now) }
{
    if text.len() < front.len() {
        return None;
    }
    let (start, rest) = text.split_at(front.len());
    if same_bytes(start, front) {
        Some(rest)
    } else {
        None
    }
}

/// Whether the path of a text begins with that of another.
pub(crate) fn begins_with(text: &[u8], front: &[u8]) -> bool
    requires text { IsText text.now }
    requires front { IsText front.now }
    ensures { result ≡ is_prefix (names front.now) (names text.now) }
{
    match behind(text, front) {
        None => false,
        Some(_) => true,
    }
}

/// The last name of bytes that spell a root's path, a parent's below it, and that name.
pub(crate) fn child_name<'a>(bytes: &'a [u8], root: &[u8], parent: &[u8]) -> Option<&'a [u8]>
    requires root { IsText root.now }
    requires parent { IsText parent.now }
    ensures { IfSome result (λ name. IsTrue (is_name name.now) × (read_path bytes.now ≡ Ok (names root.now ++ (names parent.now ++ name.now ∷ [])))) }
{
    let below = behind(bytes, &root[..root.len() - 1])?;
    let name = behind(below, parent)?;
    if is_within_limits(bytes) && is_name(name) {
        Some(name)
    } else {
        None
    }
}

/// The names, with single slashes between them, of bytes that spell a root's path and these. The names that another path below
/// the root begins with are not looked at again.
pub(crate) fn names_beside<'a>(bytes: &'a [u8], root: &[u8], known: &[u8]) -> Option<&'a [u8]>
    requires root { IsText root.now }
    requires known { IsText known.now }
    ensures { IfSome result (λ rest. IsTrue (list_all is_name (split 47 rest.now)) × (read_path bytes.now ≡ Ok (names root.now ++ split 47 rest.now))) }
{
    let rest = behind(bytes, root)?;
    let same = common_front(rest, &known[1..]);
    let cut = behind_last_slash(rest, same);
    if is_within_limits(bytes) && are_plain_or_one(&rest[cut..]) {
        Some(rest)
    } else {
        None
    }
}
