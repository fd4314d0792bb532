//! The image of a snapshot.

ghost use Rattle.std.specs.Prelude.{◌≡◌, ◌<◌, ◌++◌, [], length, OnOk, IfOk};
ghost use Rattle.gufi_base.specs.Basics.{last_of};
ghost use Rattle.gufi_tree.specs.Tree.{entry_count, HasTreeShape};
ghost use Rattle.gufi_tree.specs.Places.{path_at};
ghost use Rattle.gufi_image.specs.Bytes.{name_image};
ghost use Rattle.gufi_image.specs.Image.{entry_image, entries_image, parent_number, flag_byte, parts_image, directories_image, head_image, image_text};

use crate::put::{put_count, put_name, put_record, put_u8, put_u16, put_u32, put_u64};
use crate::width::{Width, width_of};
use gufi_base::{Memory, PathRef, RecRef, put};
use gufi_snap::Snapshot;
use gufi_tree::{DirId, EntriesRef, EntryRef, Tree};
use std::alloc::Global;

/// The bytes of the fields before the directories.
const HEAD: usize = 24;

/// The bytes of a row besides its name, its link and what stands behind that: at most those of a directory.
const RECORD: usize = 90;

#[tactic(auto, unfolding(crate::specs::Image::entry_image))]
fn put_entry(out: &mut Vec<u8>, width: Width, entry: &EntryRef<'_>) -> Result<(), Memory>
    ensures { OnOk result (out.new.items ≡ out.old.items ++ entry_image width entry.now) }
{
    let rec = entry.rec();
    put_u8(out, rec.meta().kind.letter())?;
    put_entry_name(out, entry)?;
    put_record(out, width, &rec)
}

fn put_entries(out: &mut Vec<u8>, width: Width, entries: &EntriesRef<'_>) -> Result<(), Memory>
    ensures { OnOk result (out.new.items ≡ out.old.items ++ entries_image width entries.now) }
{
    for place in 0..entries.len() {
        put_entry(out, width, &entries.at(place))?;
    }
    Ok(())
}

fn put_entry_name(out: &mut Vec<u8>, entry: &EntryRef<'_>) -> Result<(), Memory>
    ensures { OnOk result (out.new.items ≡ out.old.items ++ name_image entry.now.name) }
{
    put_name(out, entry.name())
}

/// The last name of a path, or nothing for the root.
fn put_last_name(out: &mut Vec<u8>, path: &PathRef<'_>) -> Result<(), Memory>
    ensures { OnOk result (out.new.items ≡ out.old.items ++ name_image (last_of [] path.now)) }
{
    if path.text().len() <= 1 {
        return put_name(out, &[]);
    }
    put_name(out, path.base_name())
}

fn flag_byte(flag: bool) -> u8
    ensures { result ≡ flag_byte flag }
{
    if flag { 1 } else { 0 }
}

/// A directory of these parts.
#[tactic(auto, unfolding(crate::specs::Image::parts_image))]
fn put_directory(
    out: &mut Vec<u8>,
    width: Width,
    parent: u32,
    flag: bool,
    path: &PathRef<'_>,
    rec: &RecRef<'_>,
    entries: &EntriesRef<'_>,
) -> Result<(), Memory>
    ensures { OnOk result (out.new.items ≡ out.old.items ++ parts_image width parent flag path.now rec.now entries.now) }
{
    put_u32(out, parent)?;
    put_last_name(out, path)?;
    put_u8(out, flag_byte(flag))?;
    put_record(out, width, rec)?;
    put_count(out, entries.len())?;
    put_entries(out, width, entries)
}

/// The place of a directory's parent, or all ones for the root.
fn parent_number(tree: &Tree, id: DirId) -> u32
    requires within { id.0 < length tree.now }
    requires shape { HasTreeShape tree.now }
    ensures { result ≡ parent_number tree.now (path_at tree.now id.0) }
{
    if tree.path(id).is_root() {
        return u32::MAX;
    }
    match tree.parent(id) {
        None => 0,
        Some(parent) => parent.0,
    }
}

/// The directories of a snapshot, in path order.
fn put_directories(out: &mut Vec<u8>, width: Width, snap: &Snapshot) -> Result<(), Memory>
    ensures { OnOk result (out.new.items ≡ out.old.items ++ directories_image width snap.now.tree snap.now.limit snap.now.tree) }
{
    let tree = snap.tree();
    for number in 0..tree.dirs() {
        let id = DirId(number);
        put_directory(
            out,
            width,
            parent_number(tree, id),
            snap.rolled(id),
            &tree.path(id),
            &tree.rec(id),
            &tree.entries(id),
        )?;
    }
    Ok(())
}

/// How many entries there are.
fn entry_count(tree: &Tree) -> u32
    ensures { result ≡ entry_count tree.now }
{
    let mut count = 0u32;
    for number in 0..tree.dirs() {
        count += tree.entries(DirId(number)).len() as u32;
    }
    count
}

#[tactic(auto, unfolding(crate::specs::Image::head_image))]
fn put_head(out: &mut Vec<u8>, width: Width, tree: &Tree, limit: u64) -> Result<(), Memory>
    ensures { OnOk result (out.new.items ≡ out.old.items ++ head_image width tree.now limit) }
{
    put(out, b"GUFIX\0")?;
    put_u16(out, width.version())?;
    put_u64(out, limit)?;
    put_u32(out, tree.dirs())?;
    put_u32(out, entry_count(tree))
}

/// The bytes of a record with its name.
fn row_size(name: usize, rec: &RecRef<'_>) -> usize {
    name.saturating_add(rec.link().len())
        .saturating_add(rec.xattrs().len())
        .saturating_add(rec.acl().len())
        .saturating_add(RECORD)
}

/// The bytes of entries.
fn entries_size(entries: &EntriesRef<'_>) -> usize {
    let mut size = 0usize;
    for place in 0..entries.len() {
        let entry = entries.at(place);
        size = size.saturating_add(row_size(entry.name().len(), &entry.rec()));
    }
    size
}

/// How many bytes an image has. One pass over all rows.
fn image_size(tree: &Tree) -> usize {
    let mut size = HEAD;
    for number in 0..tree.dirs() {
        let id = DirId(number);
        let own = row_size(tree.path(id).base_name().len(), &tree.rec(id));
        size = size
            .saturating_add(own)
            .saturating_add(entries_size(&tree.entries(id)));
    }
    size
}

/// The image of a snapshot: its directories in path order, each with its entries in name order.
///
/// Its version is the least that can hold the tree. One buffer, of the size that is counted first. Linear in the rows.
#[tactic(auto, unfolding(crate::specs::Image::image_text))]
pub fn write_image(alloc: Global, snap: &Snapshot) -> Result<Vec<u8>, Memory>
    ensures { IfOk result (λ image. image.items ≡ image_text snap.now.tree snap.now.limit) }
{
    let mut image = Vec::with_capacity(alloc, image_size(snap.tree()))?;
    let width = width_of(snap.tree());
    put_head(&mut image, width, snap.tree(), snap.limit())?;
    put_directories(&mut image, width, snap)?;
    Ok(image)
}
