//! The words of an expression, which are bytes.
ghost use Rattle.std.specs.Prelude.{◌≡◌, bytes_eq};

/// Whether a word is this one.
pub(crate) fn is_word(word: &[u8], wanted: &[u8]) -> bool
    ensures { result ≡ bytes_eq word.now wanted.now }
{
    word == wanted
}
