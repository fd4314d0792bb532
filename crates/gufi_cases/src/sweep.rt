//! What differs from one run of a command to the next.

/// A call of the outside that fails.
#[derive(Clone, Copy, Debug, PartialEq, Eq)]
pub(crate) enum Call {
    Open,
    Read,
    Write,
    Note,
}

/// Files are named by their places.
#[derive(Clone, Copy, Debug, PartialEq, Eq)]
pub(crate) enum Kind {
    /// Nothing differs.
    Once,
    Line { file: usize },
    Cut { file: usize },
    Fail(Call),
}

impl Kind {
    /// The word before the numbers of the runs.
    pub(crate) fn word(&self) -> &'static str {
        match self {
            Kind::Once => "run",
            Kind::Line { .. } => "line",
            Kind::Cut { .. } => "cut",
            Kind::Fail(Call::Open) => "opens",
            Kind::Fail(Call::Read) => "reads",
            Kind::Fail(Call::Write) => "writes",
            Kind::Fail(Call::Note) => "notes",
        }
    }
}

/// The numbers of the runs, both ends among them.
#[derive(Clone, Copy, Debug)]
pub(crate) struct Sweep {
    pub(crate) kind: Kind,
    pub(crate) from: usize,
    pub(crate) to: usize,
}

impl Sweep {
    /// One run.
    pub(crate) const ONCE: Sweep = Sweep {
        kind: Kind::Once,
        from: 1,
        to: 1,
    };
}
