//! The printed text of a fault.

ghost use Rattle.std.specs.Prelude.{◌≡◌, ◌++◌, OnOk, codes, decimal};
ghost use Rattle.gufi_line.specs.LineText.{trace_kind_text, fault_text};

use crate::fault::{TraceFault, TraceKind};
use gufi_base::{Memory, put, put_named, put_u64};

impl TraceKind {
    /// Appends the kind as it is printed: its name, and its number where it has one.
    pub fn put(&self, out: &mut Vec<u8>) -> Result<(), Memory>
        ensures { OnOk result (out.new.items ≡ out.old.items ++ trace_kind_text self.now) }
    {
        match *self {
            TraceKind::Short => put(out, b"Short"),
            TraceKind::BadPath => put(out, b"BadPath"),
            TraceKind::LongName => put(out, b"LongName"),
            TraceKind::BadType => put(out, b"BadType"),
            TraceKind::BadNumber { field } => put_named(out, b"BadNumber ", u64::from(field)),
            TraceKind::BadXattr => put(out, b"BadXattr"),
            TraceKind::BadAcl => put(out, b"BadAcl"),
            TraceKind::TooManyEntries => put(out, b"TooManyEntries"),
            TraceKind::NotUnderRoot => put(out, b"NotUnderRoot"),
            TraceKind::WrongStanza => put(out, b"WrongStanza"),
            TraceKind::TooMany { limit } => put_named(out, b"TooMany ", u64::from(limit)),
            TraceKind::CutLine => put(out, b"CutLine"),
        }
    }
}

impl TraceFault {
    /// Appends the fault as it is printed: its line, and its kind behind a space.
    pub fn put(&self, out: &mut Vec<u8>) -> Result<(), Memory>
        ensures { OnOk result (out.new.items ≡ out.old.items ++ fault_text self.now) }
    {
        put_u64(out, u64::from(self.line))?;
        put(out, b" ")?;
        self.kind.put(out)
    }
}
