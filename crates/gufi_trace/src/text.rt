//! The printed text of a tree's fault.

ghost use Rattle.std.specs.Prelude.{◌≡◌, ◌++◌, OnOk, codes, decimal};
ghost use Rattle.gufi_trace.specs.TraceText.{failure_text, of_tree};

use gufi_base::{Memory, put, put_u64};
use gufi_tree::TreeFault;

fn put_tree_line(out: &mut Vec<u8>, line: u32, word: &[u8]) -> Result<(), Memory>
    ensures { OnOk result (out.new.items ≡ out.old.items ++ (decimal line ++ word.now)) }
{
    put_u64(out, u64::from(line))?;
    put(out, word)
}

/// Appends the fault of a tree as it is printed: its line, or 0 where no line is named, and its kind behind a space.
pub fn put_tree_fault(out: &mut Vec<u8>, fault: TreeFault) -> Result<(), Memory>
    ensures { OnOk result (out.new.items ≡ out.old.items ++ failure_text (of_tree fault)) }
{
    match fault {
        TreeFault::NoRoot => put(out, b"0 NoRoot"),
        TreeFault::Duplicate { line } => put_tree_line(out, line, b" Duplicate"),
        TreeFault::Orphan { line } => put_tree_line(out, line, b" Orphan"),
        TreeFault::Memory => Ok(()),
    }
}
