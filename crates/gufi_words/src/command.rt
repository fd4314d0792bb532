//! Commands.

use gufi_base::{Items, Nums, Path, Text};

/// The report that `stats` is asked for.
#[derive(Clone, Copy, Debug, PartialEq, Eq)]
pub enum ReportWord {
    Levels,
    Uids,
    Gids,
    Leaves,
}

/// What each command has that asks an index.
#[derive(Drop)]
pub struct Common {
    /// The passwd file; none stands for an empty one.
    pub passwd: Option<Text>,
    /// The group file; none stands for an empty one.
    pub group: Option<Text>,
    /// The byte between the fields of a trace.
    pub delim: u8,
    /// How many rows of a trace may be rolled up into one piece; an image keeps its own limit.
    pub limit: u64,
    pub workers: u32,
    pub index: Text,
    pub user: Text,
    /// The number of the word USER.
    pub user_at: u32,
    pub start: Path,
}

/// A command. No user, no text of a query and no word of an expression is judged yet.
#[derive(Drop)]
pub enum Command {
    Walk {
        trace: Text,
        uid: u32,
        gids: Nums,
        delim: u8,
    },
    Trace2index {
        trace: Text,
        delim: u8,
    },
    Rollup {
        index: Text,
        delim: u8,
        limit: u64,
    },
    /// The trace of an index.
    Index2trace {
        index: Text,
        delim: u8,
    },
    /// What an index holds.
    Info {
        index: Text,
        delim: u8,
        limit: u64,
    },
    /// The image of an index, of which the directory at the path is replaced by a trace's tree.
    Refresh {
        index: Text,
        delim: u8,
        limit: u64,
        path: Path,
        trace: Text,
    },
    Query {
        common: Common,
        /// Columns stay columns, whatever bytes a name has.
        escape: bool,
        /// The names of the columns come first.
        header: bool,
        /// An object for each row; then neither of the two is given.
        json: bool,
        text: Text,
    },
    Agg {
        common: Common,
        /// Owners and groups are named, not numbered.
        names: bool,
        text: Text,
    },
    Find {
        common: Common,
        /// In seconds.
        now: Option<i64>,
        /// What stands before each path.
        prefix: Option<Text>,
        words: Items<Text>,
    },
    /// What the rows at and below each directory take up, down to a depth below the start.
    Du {
        common: Common,
        /// In seconds.
        now: Option<i64>,
        depth: u32,
        words: Items<Text>,
    },
    Ls {
        common: Common,
        long: bool,
        all: bool,
    },
    Stat {
        common: Common,
    },
    Stats {
        common: Common,
        /// Owners and groups are named, not numbered.
        names: bool,
        report: ReportWord,
    },
    /// The rows of one of two indexes, and those that differ; the index asked with the rest is the newer one.
    Diff {
        old: Text,
        common: Common,
    },
    Session {
        passwd: Option<Text>,
        group: Option<Text>,
        delim: u8,
        workers: u32,
        /// In seconds.
        now: Option<i64>,
        /// How many of its last replies each lane keeps; 0 for none.
        cache: u32,
        script: Text,
    },
    Gen {
        n: u32,
        delim: u8,
        workers: u32,
        summary: bool,
    },
}
