//! A trace that comes in pieces.

ghost use Rattle.std.specs.Prelude.{◌≡◌, ◌≢◌, ◌≤◌, ◌+◌, ℕ, length, List, [], ◌∷◌, ◌++◌, None, Some, Ok, Err, OnOk, IfOk, IfErr, IfSome, IsSome, IsTrue};
ghost use Rattle.gufi_base.specs.Limits.{max_dirs, max_entries};
ghost use Rattle.gufi_base.specs.Basics.{GivesUnless};
ghost use Rattle.gufi_trace.specs.TraceText.{whole_lines, cut_line, trace_lines};
ghost use Rattle.gufi_line.specs.Progress.{lines_from, Stops};
ghost use Rattle.gufi_trace.specs.Reader.{HasRead, answer_of, answer_so_far, GivesLines, stream_of, is_open};

use gufi_base::{Bytes, Line, Memory};
use gufi_line::{DigitPairs, Parts, Progress, TraceError, TraceFault, TraceKind};
use gufi_tree::Stanzas;
use std::alloc::Global;
use std::marker::Model;

/// A trace that is read in pieces.
///
/// Of the stream it keeps the lines and the last line that is still open.
#[derive(Drop)]
pub struct TraceReader {
    delim: u8,
    pairs: DigitPairs,
    progress: Progress,
    rest: Vec<u8>,
    failed: Option<TraceError>,
}

impl Model for TraceReader {
    ghost use Rattle.gufi_trace.specs.Reader.{Reading};

    ghost Value = { Reading };

    ghost use Rattle.std.specs.Prelude.{IsTrue};
    ghost use Rattle.gufi_trace.specs.Reader.{is_open};

    ghost view = { λ r. record { delim = r.delim; root = r.progress.root; lines = r.progress.lines; rest = r.rest.items; failed = r.failed } };

    ghost invariant = { λ r. IsTrue (is_open r.rest.items) };
}

/// Takes the line that the rest begins and the part ends; most lines have no rest.
#[inline(always)]
fn end_line(
    alloc: Global,
    delim: u8,
    pairs: &DigitPairs,
    progress: &mut Progress,
    rest: &mut Vec<u8>,
    part: &[u8],
) -> Result<(), TraceError>
    ensures lines { OnOk result ((more : List (List ℕ)) → lines_from delim progress.old ((rest.old.items ++ part.now) ∷ more) ≡ lines_from delim progress.new more) }
    ensures rest { OnOk result (rest.new.items ≡ []) }
    ensures err { IfErr result (λ e. (more : List (List ℕ)) → Stops e (lines_from delim progress.old ((rest.old.items ++ part.now) ∷ more))) }
{
    if rest.is_empty() {
        return progress.add(alloc, delim, pairs, part);
    }
    rest.extend_from_slice(part)?;
    progress.add(alloc, delim, pairs, rest.as_slice())?;
    rest.clear();
    Ok(())
}

/// The first part, of which there is always one.
fn first_part<'a>(parts: &mut Parts<'a>) -> &'a [u8]
    ensures { parts.old ≢ [] → parts.old ≡ result.now ∷ parts.new }
{
    match parts.next_by_blocks() {
        Some(first) => first,
        None => b"",
    }
}

/// Takes the next bytes of the stream.
fn take_piece(
    alloc: Global,
    delim: u8,
    pairs: &DigitPairs,
    progress: &mut Progress,
    rest: &mut Vec<u8>,
    piece: &[u8],
) -> Result<(), TraceError>
    requires { IsTrue (is_open rest.old.items) }
    ensures lines { OnOk result ((more : List (List ℕ)) → lines_from delim progress.old (whole_lines (rest.old.items ++ piece.now) ++ more) ≡ lines_from delim progress.new more) }
    ensures rest { OnOk result (rest.new.items ≡ cut_line (rest.old.items ++ piece.now)) }
    ensures err { IfErr result (λ e. (more : List (List ℕ)) → Stops e (lines_from delim progress.old (whole_lines (rest.old.items ++ piece.now) ++ more))) }
{
    let mut parts = Parts::of(piece, b'\n');
    let mut last = first_part(&mut parts);
    'lines: while let Some(part) = parts.next_by_blocks() {
        end_line(alloc, delim, pairs, progress, rest, last)?;
        last = part;
    }
    rest.extend_from_slice(last)?;
    Ok(())
}

impl TraceReader {
    /// A reader of a stream of which nothing has come.
    pub fn new(alloc: Global, delim: u8) -> Result<TraceReader, Memory>
        ensures delim { IfOk result (λ r. r.delim ≡ delim) }
        ensures read { IfOk result (λ r. HasRead r []) }
    {
        Ok(TraceReader {
            delim,
            pairs: DigitPairs::new(alloc, delim)?,
            progress: Progress::new(alloc)?,
            rest: Vec::new(alloc),
            failed: None,
        })
    }

    /// Takes the next bytes of the stream.
    pub fn feed(&mut self, alloc: Global, piece: &[u8]) -> Result<(), TraceError>
        // The reader has read the stream and the piece.
        ensures read { (stream : List ℕ) → HasRead self.old stream → HasRead self.new (stream ++ piece.now) }
        ensures delim { self.new.delim ≡ self.old.delim }

        // The answer is the least faulty line of all that has come, where there is one.
        ensures so_far { (stream : List ℕ) → HasRead self.old stream → GivesUnless TraceError.Memory result (answer_so_far self.old.delim (stream ++ piece.now)) }

        // After an error the same comes again.
        ensures answer { result ≡ answer_of self.new.failed }
        ensures again { IsSome self.old.failed → self.new ≡ self.old }
    {
        if let Some(error) = self.failed {
            return Err(error);
        }
        let delim = self.delim;
        match take_piece(
            alloc,
            delim,
            &self.pairs,
            &mut self.progress,
            &mut self.rest,
            piece,
        ) {
            Ok(()) => Ok(()),
            Err(error) => {
                self.rest.clear();
                self.failed = Some(error);
                Err(error)
            }
        }
    }

    /// The lines by their stanzas, at the end of the stream. Takes no memory.
    pub fn finish_stanzas(self) -> Result<Stanzas, TraceError>
        ensures lines { (stream : List ℕ) → HasRead self stream → GivesUnless TraceError.Memory result (trace_lines self.delim stream) }

        // After an error the same comes again.
        ensures again { IfSome self.failed (λ error. result ≡ Err error) }
        ensures few { IfOk result (λ stanzas. length stanzas ≤ max_dirs + max_entries) }
    {
        let TraceReader {
            progress,
            rest,
            failed,
            ..
        } = self;
        if let Some(error) = failed {
            return Err(error);
        }
        let Progress { lines, .. } = progress;
        if !rest.is_empty() {
            let line = lines.len() as u32 + 1;
            let kind = TraceKind::CutLine;
            return Err(TraceError::Fault(TraceFault { line, kind }));
        }
        Ok(lines.into_stanzas())
    }

    /// The lines, at the end of the stream.
    pub fn finish(self, alloc: Global) -> Result<Vec<Line>, TraceError>
        ensures lines { (stream : List ℕ) → HasRead self stream → GivesLines result (trace_lines self.delim stream) }
        ensures again { IfSome self.failed (λ error. result ≡ Err error) }
        ensures few { IfOk result (λ lines. length lines.items ≤ max_dirs + max_entries) }
    {
        let stanzas = self.finish_stanzas()?;
        Ok(stanzas.into_lines(alloc)?)
    }
}

/// The lines of a trace that comes in these pieces, however it is cut.
pub fn read_pieces(alloc: Global, delim: u8, pieces: &[Bytes]) -> Result<Vec<Line>, TraceError>
    ensures lines { GivesLines result (trace_lines delim (stream_of pieces.now)) }
    ensures few { IfOk result (λ lines. length lines.items ≤ max_dirs + max_entries) }
{
    let mut reader = TraceReader::new(alloc, delim)?;
    for piece in pieces {
        reader.feed(alloc, piece.as_slice())?;
    }
    reader.finish(alloc)
}

/// The lines of a trace that comes whole, by their stanzas.
pub fn read_trace(alloc: Global, delim: u8, bytes: &[u8]) -> Result<Stanzas, TraceError>
    ensures lines { GivesUnless TraceError.Memory result (trace_lines delim bytes.now) }
    ensures few { IfOk result (λ stanzas. length stanzas ≤ max_dirs + max_entries) }
{
    let mut reader = TraceReader::new(alloc, delim)?;
    reader.feed(alloc, bytes)?;
    reader.finish_stanzas()
}
