//! Patterns.
ghost use Rattle.std.specs.Prelude.{◌≡◌, ◌≢◌, ◌-◌, ◌++◌, ◌∷◌, ◌&&◌, ℕ, List, length, map, slice_index, false, bytes_eq, IfSome};
ghost use Rattle.gufi_glob.specs.Parts.{any_text, only};
ghost use Rattle.gufi_base.specs.Basics.{GivesUnless};
ghost use Rattle.gufi_glob.specs.Patterns.{matches, read_pattern};
ghost use Rattle.gufi_glob.specs.Plain.{ends_with};

use crate::fault::GlobFault;
use crate::joined::Joined;
use crate::matcher::match_whole;
use crate::part::Part;
use crate::reader::{behind_star, is_plain, read_parts};
use std::alloc::Global;
use std::marker::Model;

#[derive(Drop)]
enum Form {
    /// Bytes that match themselves.
    Plain(Vec<u8>),
    /// A `*` before such bytes.
    Tail(Vec<u8>),
    Parts(Vec<Part>),
}

/// A pattern.
#[derive(Drop)]
pub struct Glob {
    form: Form,
}

impl Model for Glob {
    ghost use Rattle.std.specs.Prelude.{List};
    ghost use Rattle.gufi_glob.specs.Parts.{Part};

    ghost Value = { List Part };

    ghost use Rattle.gufi_glob.specs.Forms.{parts_in};

    ghost view = { λ g. parts_in g.form };
}

/// Whether two pairs of texts are the same. The second is looked at first, as ends of names differ sooner.
#[inline]
fn are_same(left: &[u8], front: &[u8], right: &[u8], back: &[u8]) -> bool
    ensures { result ≡ bytes_eq right.now back.now && bytes_eq left.now front.now }
{
    right == back && left == front
}

/// The last of some bytes, and nothing of none.
#[tactic(auto, using(crate::proofs::Texts::plain_ends, crate::proofs::Texts::tail_ends))]
fn last_of(bytes: &[u8]) -> Option<u8>
    ensures plain { IfSome result (λ last. (text : List ℕ) → slice_index text (length text - 1) ≢ last → matches (map only bytes.now) text ≡ false) }
    ensures tail { IfSome result (λ last. (text : List ℕ) → slice_index text (length text - 1) ≢ last → matches (any_text ∷ map only bytes.now) text ≡ false) }
{
    match bytes {
        [.., last] => Some(*last),
        [] => None,
    }
}

/// Whether texts that end with `back` can end with these bytes, as far as the last byte tells.
#[inline(always)]
#[tactic(auto, using(crate::proofs::Texts::other_end))]
fn can_end(tail: &[u8], back: &[u8]) -> bool
    ensures { result ≡ false → (front : List ℕ) → ends_with (front ++ back.now) tail.now ≡ false }
{
    match (tail, back) {
        ([.., wanted], [.., last]) => wanted == last,
        _ => true,
    }
}

/// Whether a text in two pieces is these bytes.
#[inline(never)]
#[tactic(auto, using(crate::proofs::Texts::cut_eq, crate::proofs::Texts::unlike_short))]
fn is_text(bytes: &[u8], front: &[u8], back: &[u8]) -> bool
    ensures { result ≡ bytes_eq bytes.now (front.now ++ back.now) }
{
    if bytes.len() < front.len() {
        return false;
    }
    let (left, right) = bytes.split_at(front.len());
    are_same(left, front, right, back)
}

/// Whether a text in two pieces ends with these bytes.
#[inline(never)]
#[tactic(auto, using(crate::proofs::Texts::ends_in_back, crate::proofs::Texts::ends_in_both, crate::proofs::Texts::ends_nowhere))]
fn ends_text(tail: &[u8], front: &[u8], back: &[u8]) -> bool
    ensures { result ≡ ends_with (front.now ++ back.now) tail.now }
{
    if tail.len() <= back.len() {
        let (_, last) = back.split_at(back.len() - tail.len());
        return tail == last;
    }
    let (left, right) = tail.split_at(tail.len() - back.len());
    if left.len() > front.len() {
        return false;
    }
    let (_, last) = front.split_at(front.len() - left.len());
    are_same(left, last, right, back)
}

impl Glob {
    /// The pattern that the bytes write. One allocation where only a first `*` isn't plain.
    #[tactic(auto, using(crate::proofs::Texts::plain_pattern, crate::proofs::Texts::tail_pattern))]
    pub fn read(alloc: Global, bytes: &[u8]) -> Result<Glob, GlobFault>
        ensures { GivesUnless GlobFault.Memory result (read_pattern bytes.now) }
    {
        if is_plain(bytes) {
            let form = Form::Plain(Vec::from_slice(alloc, bytes)?);
            return Ok(Glob { form });
        }
        match behind_star(bytes) {
            Some(tail) if is_plain(tail) => {
                let form = Form::Tail(Vec::from_slice(alloc, tail)?);
                Ok(Glob { form })
            }
            _ => {
                let form = Form::Parts(read_parts(alloc, bytes)?);
                Ok(Glob { form })
            }
        }
    }

    /// The byte with which each text ends that it matches, where one is told; a text of no bytes ends as with a 0.
    pub fn last_byte(&self) -> Option<u8>
        ensures { IfSome result (λ last. (text : List ℕ) → slice_index text (length text - 1) ≢ last → matches self.now text ≡ false) }
    {
        match &self.form {
            Form::Plain(bytes) => last_of(bytes.as_slice()),
            Form::Tail(tail) => last_of(tail.as_slice()),
            Form::Parts(_) => None,
        }
    }

    /// Whether it matches a text, which comes in two pieces.
    ///
    /// At most as many steps as the pattern and the text are long, multiplied; no memory.
    ///
    /// Made part of its callers, so that most texts are refused by their last byte, without a call.
    #[inline(always)]
    #[tactic(auto, using(crate::proofs::Texts::matches_plain, crate::proofs::Texts::matches_tail, crate::proofs::Texts::end_of_same))]
    pub fn matches(&self, front: &[u8], back: &[u8]) -> bool
        ensures { result ≡ matches self.now (front.now ++ back.now) }
    {
        match &self.form {
            Form::Plain(bytes) => {
                let bytes = bytes.as_slice();
                can_end(bytes, back) && is_text(bytes, front, back)
            }
            Form::Tail(tail) => {
                let tail = tail.as_slice();
                can_end(tail, back) && ends_text(tail, front, back)
            }
            Form::Parts(parts) => match_whole(parts.as_slice(), Joined { front, back }),
        }
    }
}
