//! Rows of a class: directories, files, links and others.
ghost use Rattle.std.specs.Prelude.{◌≡◌};
ghost use Rattle.gufi_prune.specs.NoMatch.{is_of, count_of};

use gufi_base::Kind;
use gufi_sums::Summary;

/// The rows that a sum counts together.
#[derive(Clone, Copy)]
pub(crate) enum Class {
    Dirs,
    Files,
    Links,
    /// Block and character devices, pipes and sockets.
    Others,
}

impl Class {
    /// Whether a row of the type is of the class.
    pub(crate) fn has(self, kind: Kind) -> bool
        ensures { result ≡ is_of self kind }
    {
        match kind {
            Kind::Dir => matches!(self, Class::Dirs),
            Kind::File => matches!(self, Class::Files),
            Kind::Link => matches!(self, Class::Links),
            Kind::Block | Kind::Char | Kind::Fifo | Kind::Socket => matches!(self, Class::Others),
        }
    }

    /// How many rows of the class a sum counts.
    pub(crate) fn count(self, sum: &Summary) -> u64
        ensures { result ≡ count_of self sum.now }
    {
        match self {
            Class::Dirs => sum.dirs,
            Class::Files => sum.files,
            Class::Links => sum.links,
            Class::Others => sum.others,
        }
    }
}
