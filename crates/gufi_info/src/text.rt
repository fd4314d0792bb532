//! The lines that tell of an index.

ghost use Rattle.std.specs.Prelude.{◌≡◌, ◌++◌, IfOk, OnOk, codes};
ghost use Rattle.std.specs.Fmt.{signed_decimal};
ghost use Rattle.std.specs.List.{flat_map};
ghost use Rattle.gufi_roll.specs.CanRoll.{roll_flags, roll_report};
ghost use Rattle.gufi_tree.specs.Tree.{own_rows};
ghost use Rattle.gufi_info.specs.Census.{census_of};
ghost use Rattle.gufi_info.specs.Info.{number_line, pair_line, span_line, answer_line, version_line, file_lines, size_lines, roll_lines, row_lines, info_text};
ghost use Rattle.gufi_image.specs.Widths.{version_of, width_of};

use crate::census::{Census, entry_count};
use gufi_base::{Memory, put, put_i64, put_named, put_u128};
use gufi_roll::{RollReport, roll, roll_report};
use gufi_snap::Snapshot;
use gufi_tree::Tree;
use std::alloc::Global;

/// A word and a number.
#[tactic(auto, unfolding(crate::specs::Info::number_line))]
fn put_number(out: &mut Vec<u8>, word: &[u8], number: u64) -> Result<(), Memory>
    ensures { OnOk result (out.new.items ≡ out.old.items ++ number_line word.now number) }
{
    put_named(out, word, number)?;
    put(out, b"\n")
}

/// A word and a number, which may be below 0.
fn put_signed(out: &mut Vec<u8>, word: &[u8], number: i64) -> Result<(), Memory>
    ensures { OnOk result (out.new.items ≡ out.old.items ++ (word.now ++ signed_decimal number)) }
{
    put(out, word)?;
    put_i64(out, number)
}

/// A word, and the least and the greatest of times.
fn put_pair(out: &mut Vec<u8>, word: &[u8], least: i64, greatest: i64) -> Result<(), Memory>
    ensures { OnOk result (out.new.items ≡ out.old.items ++ pair_line word.now least greatest) }
{
    put_signed(out, word, least)?;
    put_signed(out, b" ", greatest)?;
    put(out, b"\n")
}

/// The same; nothing where there is no time.
fn put_span(out: &mut Vec<u8>, word: &[u8], times: Option<(i64, i64)>) -> Result<(), Memory>
    ensures { OnOk result (out.new.items ≡ out.old.items ++ span_line word.now times) }
{
    match times {
        None => Ok(()),
        Some((least, greatest)) => put_pair(out, word, least, greatest),
    }
}

/// A word, and whether it is so.
fn put_answer(out: &mut Vec<u8>, word: &[u8], holds: bool) -> Result<(), Memory>
    ensures { OnOk result (out.new.items ≡ out.old.items ++ answer_line word.now holds) }
{
    put(out, word)?;
    if holds {
        return put(out, b"yes\n");
    }
    put(out, b"no\n")
}

/// The version of an image of a tree, in whose rows this is found: the least that holds them.
#[tactic(auto, using(crate::proofs::Versions::versions))]
fn version_of(tree: &Tree, census: Census) -> u64
    requires { census ≡ census_of (flat_map own_rows tree.now) }
    ensures { result ≡ version_of (width_of tree.now) }
{
    if census.acls {
        return 3;
    }
    if census.xattrs {
        return 2;
    }
    1
}

/// An image's version.
fn put_version(out: &mut Vec<u8>, image: bool, version: u64) -> Result<(), Memory>
    ensures { OnOk result (out.new.items ≡ out.old.items ++ version_line image version) }
{
    if image {
        return put_number(out, b"version ", version);
    }
    put(out, b"version -\n")
}

/// The same, and how many bytes the file has.
#[tactic(auto, unfolding(crate::specs::Info::file_lines))]
fn put_file(out: &mut Vec<u8>, image: bool, version: u64, bytes: u64) -> Result<(), Memory>
    ensures { OnOk result (out.new.items ≡ out.old.items ++ file_lines image version bytes) }
{
    put_version(out, image, version)?;
    put_number(out, b"bytes ", bytes)
}

#[tactic(auto, unfolding(crate::specs::Info::number_line))]
fn put_depth(out: &mut Vec<u8>, depth: u128) -> Result<(), Memory>
    ensures { OnOk result (out.new.items ≡ out.old.items ++ number_line (codes "depth ") depth) }
{
    put(out, b"depth ")?;
    put_u128(out, depth)?;
    put(out, b"\n")
}

/// How large a tree is.
fn put_sizes(
    out: &mut Vec<u8>,
    limit: u64,
    dirs: u64,
    entries: u64,
    depth: u128,
) -> Result<(), Memory>
    ensures { OnOk result (out.new.items ≡ out.old.items ++ size_lines limit dirs entries depth) }
{
    put_number(out, b"limit ", limit)?;
    put_number(out, b"directories ", dirs)?;
    put_number(out, b"entries ", entries)?;
    put_depth(out, depth)
}

/// What is rolled up.
fn put_rolled(out: &mut Vec<u8>, report: RollReport) -> Result<(), Memory>
    ensures { OnOk result (out.new.items ≡ out.old.items ++ roll_lines report) }
{
    put_number(out, b"rolled ", u64::from(report.rolled))?;
    put_number(out, b"tops ", u64::from(report.tops))?;
    put_number(out, b"rows ", report.rows)
}

/// When rows were touched, and what some have.
fn put_rows(out: &mut Vec<u8>, census: Census) -> Result<(), Memory>
    ensures { OnOk result (out.new.items ≡ out.old.items ++ row_lines census) }
{
    put_span(out, b"atime ", census.atime)?;
    put_span(out, b"mtime ", census.mtime)?;
    put_span(out, b"ctime ", census.ctime)?;
    put_answer(out, b"acls ", census.acls)?;
    put_answer(out, b"xattrs ", census.xattrs)
}

/// What a tree's roll-up comes to.
fn report_of(alloc: Global, tree: &Tree, limit: u64) -> Result<RollReport, Memory>
    ensures { IfOk result (λ report. report ≡ roll_report tree.now (roll_flags tree.now limit)) }
{
    let flags = roll(alloc, tree, limit)?;
    Ok(roll_report(tree, &flags))
}

/// What is told of an index, which is an image or not, of a file of so many bytes: a line each of its version, the bytes, the limit
/// of its roll-up, how many directories and entries it has and how deep they lie, what is rolled up, the least and the greatest of
/// its rows' times in seconds, and whether a row has an access control list, or names of extended attributes.
///
/// Linear in the rows.
#[tactic(auto, unfolding(crate::specs::Info::info_text))]
pub fn info_text(alloc: Global, snap: &Snapshot, image: bool, bytes: u64) -> Result<Vec<u8>, Memory>
    ensures { IfOk result (λ text. text.items ≡ info_text image bytes snap.now.tree snap.now.limit) }
{
    let tree = snap.tree();
    let census = Census::of(tree);
    let report = report_of(alloc, tree, snap.limit())?;
    let mut text = Vec::new(alloc);
    put_file(&mut text, image, version_of(tree, census), bytes)?;
    put_sizes(
        &mut text,
        snap.limit(),
        u64::from(tree.dirs()),
        u64::from(entry_count(tree)),
        census.depth,
    )?;
    put_rolled(&mut text, report)?;
    put_rows(&mut text, census)?;
    Ok(text)
}
