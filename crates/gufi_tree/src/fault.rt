//! Why lines are no tree, and which line is the least faulty.

ghost use Rattle.std.specs.Prelude.{◌≡◌, ℕ, List, not, ◌||◌, IsTrue, IfOk, OnOk};
ghost use Rattle.std.specs.List.{list_any, list_all};
ghost use Rattle.gufi_base.specs.Names.{is_name};
ghost use Rattle.gufi_tree.specs.Build.{tree_fault};
ghost use Rattle.gufi_tree.specs.Texts.{has_text, are_named, has_path_text, has_dir_text, is_orphan_by, fault_by};

use gufi_base::Line;
use std::alloc::{AllocError, Global};
use std::collections::HashSet;

/// Why lines are no tree.
#[derive(Clone, Copy, Debug, PartialEq, Eq)]
pub enum TreeFault {
    NoRoot,
    Duplicate { line: u32 },
    Orphan { line: u32 },
    Memory,
}

impl From<AllocError> for TreeFault {
    ghost use Rattle.std.specs.Prelude.{◌≡◌};
    ghost use Rattle.gufi_tree.specs.declared.fault.TreeFault.TheVariants.{Memory};

    ghost from_gives = { λ _ e. e ≡ Memory };

    fn from(_: AllocError) -> TreeFault {
        TreeFault::Memory
    }
}

/// Adds the text of a directory's path.
fn note_dir<'a>(texts: &mut HashSet<&'a [u8]>, line: &'a Line) -> Result<(), AllocError>
    ensures texts { OnOk result ((text : List ℕ) → has_text texts.new text ≡ (has_text texts.old text || has_dir_text text line.now)) }
    ensures named { IsTrue (list_all is_name line.now.path) }
{
    let text = line.path.text();
    if line.rec.meta.kind.is_dir() {
        texts.insert(text)?;
    }
    Ok(())
}

/// The texts of the paths of the directories.
fn dir_texts(alloc: Global, lines: &[Line]) -> Result<HashSet<&[u8]>, AllocError>
    ensures texts { IfOk result (λ set. (text : List ℕ) → has_text set text ≡ list_any (has_dir_text text) lines.now) }
    ensures named { OnOk result (IsTrue (are_named lines.now)) }
{
    let mut texts = HashSet::new(alloc);
    for line in lines {
        note_dir(&mut texts, line)?;
    }
    Ok(texts)
}

/// Whether the parent of a line is no directory.
fn is_orphan<'a>(dirs: &HashSet<&'a [u8]>, line: &'a Line) -> bool
    ensures { result ≡ is_orphan_by (has_text dirs.now) line.now }
{
    match line.path.parent_text() {
        None => !line.rec.meta.kind.is_dir(),
        Some(parent) => !dirs.contains(&parent),
    }
}

/// The fault of a line behind those whose texts were seen.
fn line_fault<'a>(
    dirs: &HashSet<&'a [u8]>,
    seen: &mut HashSet<&'a [u8]>,
    line: &'a Line,
) -> Result<Option<TreeFault>, AllocError>
    ensures fault { IfOk result (λ fault. fault ≡ fault_by (has_text seen.old) (has_text dirs.now) line.now) }
    ensures seen { OnOk result ((text : List ℕ) → has_text seen.new text ≡ (has_path_text text line.now || has_text seen.old text)) }
{
    let number = line.number;
    if !seen.insert(line.path.text())? {
        return Ok(Some(TreeFault::Duplicate { line: number }));
    }
    if is_orphan(dirs, line) {
        Ok(Some(TreeFault::Orphan { line: number }))
    } else {
        Ok(None)
    }
}

/// The fault of lines that are no tree. Looks each text up twice among hashed texts.
pub(crate) fn find_fault(alloc: Global, lines: &[Line]) -> Result<Option<TreeFault>, AllocError>
    ensures { IfOk result (λ fault. fault ≡ tree_fault lines.now) }
{
    let dirs = dir_texts(alloc, lines)?;
    let root: &[u8] = b"/";
    if !dirs.contains(&root) {
        return Ok(Some(TreeFault::NoRoot));
    }
    let mut seen = HashSet::with_capacity(alloc, lines.len())?;
    for line in lines {
        if let Some(fault) = line_fault(&dirs, &mut seen, line)? {
            return Ok(Some(fault));
        }
    }
    Ok(None)
}
