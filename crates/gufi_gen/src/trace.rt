//! The trace of a generated tree.

ghost use Rattle.std.specs.Prelude.{◌≡◌, ◌++◌, ◌%◌, IfOk, OnOk};
ghost use Rattle.gufi_base.specs.Paths.{slashed_text};
ghost use Rattle.gufi_gen.specs.Generated.{directory_path, gen_text};
ghost use Rattle.gufi_gen.specs.Lines.{made_path_text, directory_line, entry_line, entry_lines, stanza_text};

use crate::made::{directory_meta, entry_meta};
use gufi_base::{Memory, RecRef, put, put_u64};
use gufi_trace::put_record;
use std::alloc::Global;

/// How many bytes the stanza of a directory has, at most, on the average of the largest trace.
const STANZA: usize = 320;

/// The names of a directory below the root: the chain of its parents is short.
fn put_names(out: &mut Vec<u8>, number: u32) -> Result<(), Memory>
    ensures { OnOk result (out.new.items ≡ out.old.items ++ slashed_text (directory_path number)) }
{
    if number == 0 {
        return Ok(());
    }
    put_names(out, (number - 1) / 8)?;
    put(out, b"/d")?;
    put_u64(out, u64::from(number))
}

/// Puts the text of a directory's path in place of what stands there.
#[tactic(auto, unfolding(crate::specs::Lines::made_path_text))]
fn write_path(path: &mut Vec<u8>, number: u32) -> Result<(), Memory>
    ensures { OnOk result (path.new.items ≡ made_path_text number) }
{
    path.clear();
    put(path, b"/g")?;
    put_names(path, number)
}

fn put_directory(out: &mut Vec<u8>, delim: u8, path: &[u8], number: u32) -> Result<(), Memory>
    requires { path.now ≡ made_path_text number }
    ensures { OnOk result (out.new.items ≡ out.old.items ++ directory_line delim number) }
{
    put(out, path)?;
    let meta = directory_meta(number);
    put_record(out, delim, &RecRef::of(&meta, b"", b"", b""))
}

fn put_entry(
    out: &mut Vec<u8>,
    delim: u8,
    path: &[u8],
    number: u32,
    place: u32,
) -> Result<(), Memory>
    requires { path.now ≡ made_path_text number }
    ensures { OnOk result (out.new.items ≡ out.old.items ++ entry_line delim number place) }
{
    put(out, path)?;
    put(out, b"/f")?;
    put_u64(out, u64::from(place))?;
    let meta = entry_meta(number, place);
    put_record(out, delim, &RecRef::of(&meta, b"", b"", b""))
}

fn put_entries(out: &mut Vec<u8>, delim: u8, path: &[u8], number: u32) -> Result<(), Memory>
    requires { path.now ≡ made_path_text number }
    ensures { OnOk result (out.new.items ≡ out.old.items ++ entry_lines delim number (number % 5)) }
{
    for place in 0..number % 5 {
        put_entry(out, delim, path, number, place)?;
    }
    Ok(())
}

/// The lines of a directory and its entries; the path is written into memory that serves for all of them.
fn put_stanza(out: &mut Vec<u8>, delim: u8, path: &mut Vec<u8>, number: u32) -> Result<(), Memory>
    ensures { OnOk result (out.new.items ≡ out.old.items ++ stanza_text delim number) }
{
    write_path(path, number)?;
    put_directory(out, delim, path, number)?;
    put_entries(out, delim, path, number)
}

/// The trace of a tree of so many directories, made from their number alone: the same one each time.
///
/// Below the root `/g` each directory has up to eight directories and up to four files. Takes time and memory in
/// proportion to the bytes, which are reserved once up to 200,000 directories.
#[tactic(auto, unfolding(crate::specs::Generated::gen_text))]
pub fn gen_trace(alloc: Global, n: u32, delim: u8) -> Result<Vec<u8>, Memory>
    ensures { IfOk result (λ text. text.items ≡ gen_text n delim) }
{
    let mut text = Vec::with_capacity(alloc, n as usize * STANZA)?;
    let mut path = Vec::new(alloc);
    for number in 0..n {
        put_stanza(&mut text, delim, &mut path, number)?;
    }
    Ok(text)
}
