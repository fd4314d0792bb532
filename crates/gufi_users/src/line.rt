//! Lines of both files.
ghost use Rattle.std.specs.Prelude.{◌≡◌};
ghost use Rattle.gufi_users.specs.Users.{is_skipped};

/// How many lines a file may have.
pub(crate) const MAX_LINES: u32 = 65536;

/// Whether a line says nothing: it is empty, or begins with `#`, `+` or `-`.
pub(crate) fn is_skipped(text: &[u8]) -> bool
    ensures { result ≡ is_skipped text.now }
{
    match text {
        [] => true,
        [first, ..] => *first == b'#' || *first == b'+' || *first == b'-',
    }
}
