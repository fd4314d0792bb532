//! The four reports.

ghost use Rattle.std.specs.Prelude.{◌≡◌, ◌^◌, ◌<◌, List, Option, length, filter, IsTrue, IfOk};
ghost use Rattle.std.specs.Option.{option_copied};
ghost use Rattle.gufi_base.specs.declared.record.Row.{Row};
ghost use Rattle.gufi_base.specs.Basics.{ascends};
ghost use Rattle.gufi_base.specs.Paths.{Components};
ghost use Rattle.gufi_base.specs.Rows.{row_cmp, is_dir_row};
ghost use Rattle.gufi_users.specs.Entries.{UserTables};
ghost use Rattle.gufi_stats.specs.Grouped.{grouped, depth, uid, gid};
ghost use Rattle.gufi_stats.specs.Reports.{stats_text};

use crate::by_key::{Key, lines_by};
use crate::counts::Counts;
use crate::label::Label;
use crate::leaves::leaf_lines;
use crate::number::{Depth, Gid, Uid};
use gufi_base::{Memory, Path, Row};
use gufi_users::Users;
use std::alloc::Global;

/// What a report tells of rows.
#[derive(Clone, Copy, Debug, PartialEq, Eq)]
pub enum Report {
    /// The rows at each depth below the start.
    Levels,
    /// The rows of each owner.
    Uids,
    /// The rows of each group.
    Gids,
    /// The directories below which there is no directory.
    Leaves,
}

/// A report over rows that lie at and below a start, in path order: a line for each depth, owner or group that a row
/// has, ascending, with its counts; or the path of each directory below which no row is a directory.
///
/// With tables an owner or a group is told by its name, or by its number where it has none. Lines stay in the order of
/// numbers, and two may begin alike, since a name may be written as another's number.
///
/// Takes time in proportion to the rows, times the logarithm of the number of lines.
pub fn stats_text(
    alloc: Global,
    rows: &[Row],
    start: &Path,
    which: Report,
    names: Option<&Users>,
) -> Result<Vec<u8>, Memory>
    requires in_order { IsTrue (ascends row_cmp rows.now) }
    requires few { length rows.now < 2 ^ 40 }
    ensures { IfOk result (λ text. text.items ≡ stats_text (option_copied names.entry) rows.now start.now which) }
{
    match which {
        Report::Levels => {
            let above = start.depth();
            lines_by(alloc, Label::Level, rows, Key::Level { above })
        }
        Report::Uids => lines_by(alloc, Label::Uid(names), rows, Key::Uid),
        Report::Gids => lines_by(alloc, Label::Gid(names), rows, Key::Gid),
        Report::Leaves => leaf_lines(alloc, rows),
    }
}

/// The report of levels of rows that lie at and below a start, by their counts.
///
/// This call and the next two take time in proportion to the number of lines, times its logarithm.
pub fn levels_text(alloc: Global, counts: Counts<Depth>, start: &Path) -> Result<Vec<u8>, Memory>
    requires few { (rows : List Row) × (counts ≡ grouped depth rows) × (length rows < 2 ^ 40) }
    ensures { IfOk result (λ text. (names : Option UserTables) (rows : List Row) → counts ≡ grouped depth rows → text.items ≡ stats_text names rows start.now Report.Levels) }
{
    counts.lines(alloc, Label::Level, start.depth())
}

/// The report of owners, by the counts of rows; with tables by name, in the order of numbers.
pub fn uids_text(
    alloc: Global,
    counts: Counts<Uid>,
    names: Option<&Users>,
) -> Result<Vec<u8>, Memory>
    requires few { (rows : List Row) × (counts ≡ grouped uid rows) × (length rows < 2 ^ 40) }
    ensures { IfOk result (λ text. (rows : List Row) (start : Components) → counts ≡ grouped uid rows → text.items ≡ stats_text (option_copied names.entry) rows start Report.Uids) }
{
    counts.lines(alloc, Label::Uid(names), 0)
}

/// The report of groups, by the counts of rows; with tables by name, in the order of numbers.
pub fn gids_text(
    alloc: Global,
    counts: Counts<Gid>,
    names: Option<&Users>,
) -> Result<Vec<u8>, Memory>
    requires few { (rows : List Row) × (counts ≡ grouped gid rows) × (length rows < 2 ^ 40) }
    ensures { IfOk result (λ text. (rows : List Row) (start : Components) → counts ≡ grouped gid rows → text.items ≡ stats_text (option_copied names.entry) rows start Report.Gids) }
{
    counts.lines(alloc, Label::Gid(names), 0)
}

/// The report of leaves, by those of the rows that are directories, in path order.
///
/// Takes time in proportion to the directories.
pub fn leaves_text(alloc: Global, directories: &[Row]) -> Result<Vec<u8>, Memory>
    requires in_order { IsTrue (ascends row_cmp directories.now) }
    ensures { IfOk result (λ text. (names : Option UserTables) (rows : List Row) (start : Components) → directories.now ≡ filter is_dir_row rows → text.items ≡ stats_text names rows start Report.Leaves) }
{
    leaf_lines(alloc, directories)
}
