//! What a roll-up comes to.

ghost use Rattle.std.specs.Prelude.{◌≡◌, ◌<◌, ◌≤◌, ◌+◌, length, slice_index_or, [], false, not, if◌then◌else◌, IsTrue};
ghost use Rattle.gufi_tree.specs.Tree.{Directory};
ghost use Rattle.gufi_roll.specs.CanRoll.{is_under, rolled_dirs, roll_report};
ghost use Rattle.gufi_roll.specs.Below.{AreFlags, IsReport};

use gufi_tree::{DirId, Tree};

/// How many directories there are, how many of them are rolled up, how many of these have no rolled directory above
/// them, and the rows at and below those.
#[derive(Clone, Copy, Debug, PartialEq, Eq)]
pub struct RollReport {
    pub dirs: u32,
    pub rolled: u32,
    pub tops: u32,
    pub rows: u64,
}

/// Whether a rolled directory lies below one that is rolled.
fn lies_under(tree: &Tree, flags: &[bool], id: DirId) -> bool
    requires flags { AreFlags tree.now flags.now }
    requires within { id.0 < length tree.now }
    ensures { (d : Directory) → result ≡ is_under (rolled_dirs tree.now flags.now) [] (slice_index_or tree.now id.0 d).path }
{
    // The count tells that the tree has its shape: a parent stands before its children.
    let _count = tree.dirs();
    match tree.parent(id) {
        None => false,
        Some(parent) => flags[parent.0 as usize],
    }
}

/// One for a rolled directory that lies under none.
fn top_count(tree: &Tree, flags: &[bool], id: DirId) -> u32
    requires flags { AreFlags tree.now flags.now }
    requires within { id.0 < length tree.now }
    ensures few { result ≤ 1 }
    ensures value { (d : Directory) → result ≡ (if not (is_under (rolled_dirs tree.now flags.now) [] (slice_index_or tree.now id.0 d).path) then 1 else 0) }
{
    if lies_under(tree, flags, id) {
        return 0;
    }
    1
}

/// What is counted, with a rolled directory more.
fn with_rolled(report: RollReport, tree: &Tree, flags: &[bool], id: DirId) -> RollReport
    requires flags { AreFlags tree.now flags.now }
    requires within { id.0 < length tree.now }
    requires rolled { IsTrue (slice_index_or flags.now id.0 false) }
    requires before { IsReport tree.now flags.now id.0 report }
    ensures { IsReport tree.now flags.now (id.0 + 1) result }
{
    // The count tells that the tree has its shape, and that its rows can be counted.
    let _count = tree.dirs();
    let own = tree.entries(id).len() as u64 + 1;
    let top = top_count(tree, flags, id);
    RollReport {
        dirs: report.dirs,
        rolled: report.rolled + 1,
        tops: report.tops + top,
        rows: report.rows + own,
    }
}

/// What is counted, with a directory more.
fn with_next(report: RollReport, tree: &Tree, flags: &[bool], id: DirId) -> RollReport
    requires flags { AreFlags tree.now flags.now }
    requires within { id.0 < length tree.now }
    requires before { IsReport tree.now flags.now id.0 report }
    ensures { IsReport tree.now flags.now (id.0 + 1) result }
{
    if flags[id.0 as usize] {
        return with_rolled(report, tree, flags, id);
    }
    report
}

/// What the flags of a tree come to. Linear in the directories, and takes no memory.
pub fn roll_report(tree: &Tree, flags: &[bool]) -> RollReport
    requires { AreFlags tree.now flags.now }
    ensures { result ≡ roll_report tree.now flags.now }
{
    let dirs = tree.dirs();
    let mut report = RollReport {
        dirs,
        rolled: 0,
        tops: 0,
        rows: 0,
    };
    for place in 0..dirs {
        report = with_next(report, tree, flags, DirId(place));
    }
    report
}
