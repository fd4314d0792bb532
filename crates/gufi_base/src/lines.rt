//! Texts cut into lines.

ghost use Rattle.std.specs.Prelude.{◌≡◌, ◌≢◌, ℕ, List, [], ◌∷◌, ◌++◌, MatchOption};
ghost use Rattle.gufi_base.specs.Basics.{text_lines};

use crate::piece::{Pieces, pieces_of};

/// The lines of a text, whose last may lack its newline.
#[tactic(auto, using(crate::proofs::TextLines::lines_ended, crate::proofs::TextLines::lines_unended))]
pub fn lines_of<'a>(bytes: &'a [u8]) -> Pieces<'a, 'static>
    ensures { result ≡ text_lines bytes.now }
{
    if bytes.is_empty() {
        return no_lines();
    }
    match ended_front(bytes) {
        Some(front) => pieces_of(front, b"\n"),
        None => pieces_of(bytes, b"\n"),
    }
}

fn no_lines() -> Pieces<'static, 'static>
    ensures { result ≡ [] }
{
    let mut lines = pieces_of(b"", b"\n");
    // An empty text has one piece, which is no line.
    let _empty = lines.next();
    lines
}

// What stands before a newline at the end.
fn ended_front(bytes: &[u8]) -> Option<&[u8]>
    ensures { MatchOption result ((front : List ℕ) → bytes.now ≢ front ++ 10 ∷ []) (λ front. bytes.now ≡ front.now ++ 10 ∷ []) }
{
    bytes.strip_suffix(b"\n")
}
