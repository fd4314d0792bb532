//! The names in an image.

ghost use Rattle.std.specs.Prelude.{◌≡◌, ◌||◌, nat_lt, ◌∷◌, [], ◌++◌, IsTrue, IfOk};
ghost use Rattle.gufi_base.specs.Limits.{max_components, max_path};
ghost use Rattle.gufi_base.specs.Names.{is_name};
ghost use Rattle.gufi_base.specs.Paths.{is_too_long};
ghost use Rattle.gufi_image.specs.Fields.{Gives};
ghost use Rattle.gufi_image.specs.Names.{name_at};

use crate::fault::{ImageKind, Refused};
use crate::fields::{bytes_at, flaw, u8_at};
use gufi_base::{PathRef, is_name};
use std::marker::Model;

/// More names or bytes than a path may have.
fn is_over(names: u128, bytes: u128) -> bool
    ensures { result ≡ (nat_lt max_components names || nat_lt max_path bytes) }
{
    names > 256 || bytes > 4096
}

/// The path of a directory, measured once for all names in it.
#[derive(Drop)]
pub(crate) struct Above<'a> {
    path: PathRef<'a>,
    depth: usize,
    bytes: usize,
}

impl<'a> Model for Above<'a> {
    ghost use Rattle.std.specs.Prelude.{ℕ, List};

    ghost Value = { List (List ℕ) };

    ghost use Rattle.gufi_image.specs.Measured.{IsMeasured};

    ghost view = { λ a. a.path };

    ghost invariant = { λ a. IsMeasured a.path a.depth a.bytes };
}

impl<'a> Above<'a> {
    pub(crate) fn of(path: PathRef<'a>) -> Above<'a>
        ensures { result ≡ path.entry }
    {
        let depth = path.depth();
        let bytes = path.text().len();
        Above { path, depth, bytes }
    }

    fn is_too_long_with(&self, name: &[u8]) -> bool
        ensures { result ≡ is_too_long (self.now ++ name.now ∷ []) }
    {
        is_over(
            self.depth as u128 + 1,
            self.bytes as u128 + name.len() as u128,
        )
    }
}

/// A name below a directory, behind its length. It stays where it stands.
#[inline(always)]
#[tactic(auto, unfolding(crate::specs::Names::name_at))]
pub(crate) fn name_at<'a>(
    bytes: &'a [u8],
    above: &Above<'_>,
) -> Result<(&'a [u8], &'a [u8]), Refused>
    ensures gives { Gives (λ x. (x.0.now, x.1.now)) result (name_at above.now bytes.now) }
    ensures name { IfOk result (λ x. IsTrue (is_name x.0.now)) }
{
    let (count, rest) = u8_at(bytes)?;
    let (text, rest) = bytes_at(rest, count as usize)?;
    if !is_name(text) || above.is_too_long_with(text) {
        return Err(flaw(bytes, ImageKind::Name));
    }
    Ok((text, rest))
}
