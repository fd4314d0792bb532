//! What a script asks for.

use gufi_base::{Bytes, Items, Path, Text};
use std::marker::Model;

/// What an ask wants of the rows that its user lists.
#[derive(Clone, Copy, Debug, PartialEq, Eq)]
pub enum Form {
    /// The paths of those for which an expression is true.
    Find,
    /// The sum of those.
    Total,
    /// Columns of those that a SELECT chooses.
    Query,
}

/// One line of a script.
#[derive(Drop)]
pub enum Act {
    /// Publishes the tree of a trace, rolled up under a limit on rows.
    Publish {
        limit: u64,
        file: Text,
    },
    /// Publishes the last published tree under another limit.
    Rollup {
        limit: u64,
    },
    /// Publishes the last published tree, in which the subtree at a path is replaced by the tree of a trace.
    Refresh {
        path: Path,
        file: Text,
    },
    /// Asks in a lane, from 1, as a user and from a path on. The words are of the form's language.
    Ask {
        lane: u32,
        user: Bytes,
        path: Path,
        form: Form,
        words: Items<Bytes>,
    },
    /// Ends a phase.
    Barrier,
}

/// The acts, each with its line, from 1.
#[derive(Drop)]
pub struct Script {
    pub acts: Items<(u32, Act)>,
}

impl Model for Script {
    ghost use Rattle.std.specs.Prelude.{List};
    ghost use Rattle.gufi_script.specs.ScriptText.{PlacedAct};

    ghost Value = { List PlacedAct };

    ghost view = { λ s. s.acts };
}
