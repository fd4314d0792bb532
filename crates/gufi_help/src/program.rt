//! One run of the program: a page, or what `gufi_top` makes of the words.
ghost use Rattle.std.specs.Prelude.{◌≡◌, ◌⊎◌, [], None, true, drop, IfSome, IsSome};
ghost use Rattle.gufi_words.specs.WordTexts.{texts};
ghost use Rattle.gufi_top.specs.Verdict.{MayRefuseWords};
ghost use Rattle.gufi_top.specs.Ends.{TakesNote, memory_note};
ghost use Rattle.gufi_pages.specs.Pages.{page_of};
ghost use Rattle.gufi_pages.specs.Shown.{IsShown, CutShort};
ghost use Rattle.gufi_help.specs.Channels.{held_bytes, is_held_whole};
ghost use Rattle.gufi_help.specs.Inserted.{inserted_of, renumbered};
ghost use Rattle.gufi_help.specs.Runs.{HasRunWords, HasRunInserted, IsToldToCaller, TellsCallerOneOf};
ghost use Rattle.gufi_help.specs.Explaining.{words_behind, asked_of, HasRunExplained};
ghost use Rattle.gufi_explain.specs.Explained.{detail_of};

use crate::channel::Channel;
use crate::explaining::{Asked, run_explained};
use crate::inserted::{Inserted, inserted_words, renumbered};
use crate::watched::Watched;
use gufi_explain::{Rules, detail_words};
use gufi_io::{Gate, Shelf, Sink, write_whole};
use gufi_pages::{Pages, page, show};
use gufi_top::{Outcome, gufi_run};
use std::alloc::Global;
use std::sync::Wait;
use std::thread::Threads;

/// Says that there is no memory to collect the words in, and gives the status of that.
pub fn without_words<K: Sink>(notes: &mut K) -> u8
    ensures status { result ≡ 7 }
    ensures noted { TakesNote K.Sink notes.old notes.new memory_note }
{
    // Where the note fails, only the status is left to tell.
    let _ = write_whole(notes, b"gufi: no memory\n");
    7
}

// Writes the note of a refused word, which is held, as the caller counts.
fn tell_word<K: Sink>(
    alloc: Global,
    inserted: Inserted,
    kept: &Channel<K>,
    notes: &mut Channel<K>,
) -> u8
    ensures status { (result ≡ 2) ⊎ (result ≡ 7) }
    ensures whole { result ≡ 2 → is_held_whole kept.now ≡ true }
    ensures counted { result ≡ 2 → TakesNote ⟦<Channel<K> as Sink>⟧ notes.old notes.new (renumbered inserted (held_bytes kept.now)) }
    ensures memory { result ≡ 7 → TakesNote ⟦<Channel<K> as Sink>⟧ notes.old notes.new memory_note }
{
    if !kept.is_held_whole() {
        return without_words(notes);
    }
    let Ok(note) = renumbered(alloc, inserted, kept.held()) else {
        return without_words(notes);
    };
    // Where the note fails, only the status is left to tell.
    let _ = write_whole(notes, &note);
    2
}

// Writes the note of a run, which is held, and gives the status that is left by that.
pub(crate) fn tell_caller<K: Sink>(
    alloc: Global,
    inserted: Inserted,
    ran: u8,
    kept: &Channel<K>,
    notes: &mut Channel<K>,
) -> u8
    ensures told { IsToldToCaller ⟦<Channel<K> as Sink>⟧ inserted ran kept.now result notes.old notes.new }
    ensures refused { result ≡ 2 → (ran ≡ 2) × (is_held_whole kept.now ≡ true) }
    ensures counted { result ≡ 2 → TakesNote ⟦<Channel<K> as Sink>⟧ notes.old notes.new (renumbered inserted (held_bytes kept.now)) }
{
    if ran == 2 {
        return tell_word(alloc, inserted, kept, notes);
    }
    match write_whole(notes, kept.held()) {
        Err(_) if ran == 0 => 4,
        _ => ran,
    }
}

// What `gufi_run` makes of words among which some were put in. Its note is held back until its status tells whether it names a word.
fn run_inserted<R: Threads + Wait + Sync, F: Shelf, K: Sink + Drop, G: Gate + Sync>(
    rt: &R,
    alloc: Global,
    inserted: Inserted,
    words: &[String],
    shelf: &mut F,
    out: &mut Channel<K>,
    notes: &mut Channel<K>,
    gate: &G,
) -> Outcome
    ensures run { HasRunInserted ⟦<Channel<K> as Sink>⟧ inserted F.Shelf (texts words.now) result shelf.old shelf.new out.old out.new notes.old notes.new }
    ensures refused { result.status ≡ 2 → TellsCallerOneOf ⟦<Channel<K> as Sink>⟧ inserted (MayRefuseWords (texts words.now)) notes.old notes.new }
{
    let mut kept = Channel::holding(alloc);
    let outcome = gufi_run(rt, alloc, words, shelf, out, &mut kept, gate);
    let status = tell_caller(alloc, inserted, outcome.status, &kept, notes);
    let numbers = outcome.numbers;
    Outcome { status, numbers }
}

// What the words come to behind the option that tells of words that were put in, where it stands there.
fn run_behind<R: Threads + Wait + Sync, F: Shelf + Watched, K: Sink + Drop, G: Gate + Sync>(
    rt: &R,
    alloc: Global,
    rules: &Rules,
    inserted: Option<Inserted>,
    words: &[String],
    shelf: &mut F,
    out: &mut Channel<K>,
    notes: &mut Channel<K>,
    gate: &G,
) -> Outcome
    ensures run { inserted ≡ None → detail_of (texts words.now) ≡ None
        → HasRunWords F.Shelf ⟦<Channel<K> as Sink>⟧ (texts words.now) result shelf.old shelf.new out.old out.new notes.old notes.new }
    ensures inserted { detail_of (texts words.now) ≡ None → IfSome inserted (λ inserted.
        HasRunInserted ⟦<Channel<K> as Sink>⟧ inserted F.Shelf (texts words.now) result shelf.old shelf.new out.old out.new notes.old notes.new) }
    ensures renumbered { detail_of (texts words.now) ≡ None → IfSome inserted (λ inserted. result.status ≡ 2
        → TellsCallerOneOf ⟦<Channel<K> as Sink>⟧ inserted (MayRefuseWords (texts words.now)) notes.old notes.new) }
    ensures explained { IfSome (detail_of (texts words.now)) (λ detail. HasRunExplained ⟦<Channel<K> as Sink>⟧ F.Shelf F.Watched rules.now inserted detail
        (drop 1 (texts words.now)) result shelf.old shelf.new out.old out.new notes.old notes.new) }
{
    match detail_words(words) {
        Some((detail, words)) => {
            let asked = Asked { inserted, detail };
            run_explained(rt, alloc, rules, asked, words, shelf, out, notes, gate)
        }
        None => match inserted {
            Some(inserted) => run_inserted(rt, alloc, inserted, words, shelf, out, notes, gate),
            None => gufi_run(rt, alloc, words, shelf, out, notes, gate),
        },
    }
}

/// Shows the page that the words ask for. All other words are `gufi_run`'s, in full.
///
/// The option `--inserted=FIRST,COUNT` in front of a command tells that a wrapper put in words behind it: so many, from the word
/// of that number on, the command being word 1. Where a note names a word, its number is then that which it has without them.
///
/// The option `--explain` behind it, or `--explain=files`, asks that an explanation stands behind the note.
pub fn run<R: Threads + Wait + Sync, F: Shelf + Watched, K: Sink + Drop, G: Gate + Sync>(
    rt: &R,
    alloc: Global,
    pages: &Pages,
    words: &[String],
    shelf: &mut F,
    out: &mut Channel<K>,
    notes: &mut Channel<K>,
    gate: &G,
) -> Outcome
    // A page is shown whole, or a front of it where the output failed. No file is asked for.
    ensures page_status { IsSome (page_of pages.now (texts words.now)) → (result.status ≡ 0) ⊎ (result.status ≡ 4) }
    ensures page_whole { IfSome (page_of pages.now (texts words.now)) (λ text. result.status ≡ 0
        → IsShown ⟦<Channel<K> as Sink>⟧ out.old out.new notes.old notes.new text) }
    ensures page_cut { IfSome (page_of pages.now (texts words.now)) (λ text. result.status ≡ 4
        → CutShort ⟦<Channel<K> as Sink>⟧ out.old out.new notes.old notes.new text) }
    ensures page_alone { IsSome (page_of pages.now (texts words.now)) → (result.numbers.items ≡ []) × (shelf.new ≡ shelf.old) }

    // All that `gufi_run` promises, where no page is asked for and no words were put in.
    ensures run { page_of pages.now (texts words.now) ≡ None → inserted_of (texts words.now) ≡ None → detail_of (texts words.now) ≡ None
        → HasRunWords F.Shelf ⟦<Channel<K> as Sink>⟧ (texts words.now) result shelf.old shelf.new out.old out.new notes.old notes.new }

    // Where words were put in, all that it promises of the words behind the option, but that its note is told to the caller.
    ensures inserted { page_of pages.now (texts words.now) ≡ None → IfSome (inserted_of (texts words.now)) (λ inserted. detail_of (drop 1 (texts words.now)) ≡ None
        → HasRunInserted ⟦<Channel<K> as Sink>⟧ inserted F.Shelf (drop 1 (texts words.now)) result shelf.old shelf.new out.old out.new notes.old notes.new) }

    // A refused word is then told with the number that the caller counts.
    ensures renumbered { page_of pages.now (texts words.now) ≡ None → IfSome (inserted_of (texts words.now)) (λ inserted. detail_of (drop 1 (texts words.now)) ≡ None → result.status ≡ 2
        → TellsCallerOneOf ⟦<Channel<K> as Sink>⟧ inserted (MayRefuseWords (drop 1 (texts words.now))) notes.old notes.new) }

    // Where an explanation is asked for, all that `gufi_run` promises of the words behind the options, but that its note is held and told, and then explained.
    ensures explained { page_of pages.now (texts words.now) ≡ None → IfSome (asked_of (texts words.now)) (λ detail.
        HasRunExplained ⟦<Channel<K> as Sink>⟧ F.Shelf F.Watched pages.now.rules (inserted_of (texts words.now)) detail (drop 1 (words_behind (texts words.now)))
        result shelf.old shelf.new out.old out.new notes.old notes.new) }
{
    match page(pages, words) {
        Some(text) => {
            let status = show(text, out, notes);
            let numbers = Vec::new(alloc);
            Outcome { status, numbers }
        }
        None => match inserted_words(words) {
            Some((inserted, behind)) => {
                let rules = &pages.rules;
                run_behind(
                    rt,
                    alloc,
                    rules,
                    Some(inserted),
                    behind,
                    shelf,
                    out,
                    notes,
                    gate,
                )
            }
            None => run_behind(
                rt,
                alloc,
                &pages.rules,
                None,
                words,
                shelf,
                out,
                notes,
                gate,
            ),
        },
    }
}
