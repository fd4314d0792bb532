//! Why the system failed, in words.
ghost use Rattle.std.specs.Prelude.{◌≡◌};
ghost use Rattle.gufi_explain.specs.Errors.{error_words};

use std::io::ErrorKind;

pub(crate) fn error_words(kind: ErrorKind) -> &'static str
    ensures { result.now ≡ error_words kind }
{
    match kind {
        ErrorKind::NotFound => "no such file or directory",
        ErrorKind::PermissionDenied => "permission denied",
        ErrorKind::NotADirectory => "not a directory",
        ErrorKind::IsADirectory => "is a directory",
        ErrorKind::FilesystemLoop => "too many links lead to links",
        ErrorKind::InvalidFilename => "the name is too long",
        ErrorKind::InvalidInput => "the name has a byte that no name may have",
        ErrorKind::StaleNetworkFileHandle => "the file was removed on its server",
        ErrorKind::ResourceBusy => "busy",
        ErrorKind::TimedOut => "timed out",
        ErrorKind::Interrupted => "interrupted",
        ErrorKind::OutOfMemory => "no memory",
        _ => "input or output failed",
    }
}
