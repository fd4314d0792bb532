//! Scripts line by line.
ghost use Rattle.std.specs.Prelude.{◌≡◌, ◌≢◌, ◌≤◌, Ok, Err, IfOk, OnOk, IfErr, IsTrue};
ghost use Rattle.gufi_base.specs.Basics.{GivesUnless, result_map_err};
ghost use Rattle.gufi_script.specs.Faults.{error_at};
ghost use Rattle.gufi_script.specs.ScriptText.{publishing_count, is_publishing, is_comment, is_skipped_line, read_line, with_act, with_script_line, read_script, is_script};

use crate::act::{Act, Script};
use crate::fault::{LineFault, ScriptError, ScriptKind};
use crate::reading::act_of;
use crate::word::{has_bad_escape, raw_words, words_of};
use gufi_base::{Items, lines_of};
use std::alloc::{AllocError, Global};

/// How many lines a script may have.
const MAX_LINES: u32 = 4096;

/// How many publishing commands a script may have.
const MAX_PUBLISHING: u32 = 1000;

// The acts of the lines so far, and how many of them publish.
#[derive(Drop)]
struct Acts {
    placed: Vec<(u32, Act)>,
    publishing: u32,
    ghost counted: { publishing ≡ publishing_count placed.items },
}

fn publishes(act: &Act) -> bool
    ensures { result ≡ is_publishing act.now }
{
    match act {
        Act::Publish { .. } => true,
        Act::Rollup { .. } => true,
        Act::Refresh { .. } => true,
        Act::Ask { .. } => false,
        Act::Barrier => false,
    }
}

fn is_comment(text: &[u8]) -> bool
    ensures { result ≡ is_comment text.now }
{
    match text {
        [] => false,
        [first, ..] => *first == b'#',
    }
}

fn is_skipped(alloc: Global, text: &[u8]) -> Result<bool, AllocError>
    ensures { IfOk result (λ skipped. skipped ≡ is_skipped_line text.now) }
{
    if is_comment(text) {
        return Ok(true);
    }
    let words = raw_words(alloc, text)?;
    Ok(words.is_empty())
}

#[tactic(auto, unfolding(crate::specs::ScriptText::read_line))]
fn act_in(alloc: Global, text: &[u8]) -> Result<Act, LineFault>
    ensures { GivesUnless LineFault.Memory result (result_map_err LineFault.Kind (read_line text.now)) }
{
    if has_bad_escape(text) {
        return Err(LineFault::Kind(ScriptKind::Escape));
    }
    let words = words_of(alloc, text)?;
    act_of(alloc, words)
}

impl Acts {
    #[tactic(auto, unfolding(crate::specs::ScriptText::with_act), using(crate::proofs::ReadLemmas::count_one_more, crate::proofs::ReadLemmas::count_no_more))]
    fn push(&mut self, number: u32, act: Act) -> Result<(), LineFault>
        ensures ok { OnOk result (with_act number self.old.placed.items act ≡ Ok self.new.placed.items) }
        ensures err { IfErr result (λ e. e ≢ LineFault.Memory → result_map_err LineFault.Kind (with_act number self.old.placed.items act) ≡ Err e) }
    {
        if !publishes(&act) {
            self.placed.push((number, act))?;
            return Ok(());
        }
        if self.publishing >= MAX_PUBLISHING {
            return Err(LineFault::Kind(ScriptKind::TooMany {
                limit: MAX_PUBLISHING,
            }));
        }
        self.placed.push((number, act))?;
        self.publishing += 1;
        Ok(())
    }

    #[tactic(auto, unfolding(crate::specs::ScriptText::with_script_line))]
    fn add_line(&mut self, alloc: Global, number: u32, text: &[u8]) -> Result<(), LineFault>
        ensures ok { OnOk result (with_script_line number self.old.placed.items text.now ≡ Ok self.new.placed.items) }
        ensures err { IfErr result (λ e. e ≢ LineFault.Memory → result_map_err LineFault.Kind (with_script_line number self.old.placed.items text.now) ≡ Err e) }
        ensures number { OnOk result (number ≤ 4096) }
    {
        if number > MAX_LINES {
            return Err(LineFault::Kind(ScriptKind::TooMany { limit: MAX_LINES }));
        }
        if is_skipped(alloc, text)? {
            return Ok(());
        }
        let act = act_in(alloc, text)?;
        self.push(number, act)
    }
}

fn at_line(number: u32, fault: LineFault) -> ScriptError
    ensures { result ≡ error_at number fault }
{
    match fault {
        LineFault::Kind(kind) => ScriptError::Fault { line: number, kind },
        LineFault::Memory => ScriptError::Memory,
    }
}

/// The acts of a script, or the first fault of its least faulty line.
///
/// Users and queries aren't judged. A few allocations a line, and time in proportion to the bytes.
#[tactic(auto, unfolding(crate::specs::ScriptText::read_script), using(crate::proofs::ReadLemmas::lines_more, crate::proofs::ReadLemmas::lines_stop, crate::proofs::ReadLemmas::lines_done, crate::proofs::Sound::read_is_script))]
pub fn read_script(alloc: Global, bytes: &[u8]) -> Result<Script, ScriptError>
    ensures acts { GivesUnless ScriptError.Memory result (read_script bytes.now) }
    ensures sound { IfOk result (λ script. IsTrue (is_script script)) }
{
    let mut acts = Acts {
        placed: Vec::new(alloc),
        publishing: 0,
    };
    let mut number = 0;
    'lines: for text in lines_of(bytes) {
        number += 1;
        match acts.add_line(alloc, number, text) {
            Ok(()) => {}
            Err(fault) => return Err(at_line(number, fault)),
        }
    }
    Ok(Script {
        acts: Items::of(acts.placed),
    })
}
