//! Commands with a USER and a START, which ask one index.
ghost use Rattle.std.specs.Prelude.{◌≡◌, IfErr};
ghost use Rattle.gufi_io.specs.Kept.{Keeps};
ghost use Rattle.gufi_access.specs.declared.class.Principal.{Principal as SeenPrincipal};
ghost use Rattle.gufi_top.specs.Questions.{asks};
ghost use Rattle.gufi_top.specs.Views.{text_view};
ghost use Rattle.gufi_top.specs.Verdict.{user_in, asked_by, index_over, ask_over, AskMayRefuse};
ghost use Rattle.gufi_top.specs.Calls.{Gives, GivesOver, IsOfBytes, OfWordsOnlyBy, HaltHasCause};

use crate::halt::{Halt, Output, refused};
use crate::index::read_index;
use crate::note;
use crate::question::Question;
use crate::users::read_users;
use gufi_access::Principal;
use gufi_io::{Gate, Shelf};
use gufi_snap::Snapshot;
use gufi_users::Users;
use gufi_walk::Walkers;
use gufi_words::Common;
use std::alloc::Global;
use std::sync::Wait;
use std::thread::Threads;

// The principal that the word USER names.
#[tactic(auto, unfolding(crate::specs::Verdict::user_in))]
pub(crate) fn principal_of(alloc: Global, common: &Common, users: &Users) -> Result<Principal, Halt>
    ensures who { Gives (λ (who : SeenPrincipal). who) result (user_in common.now users.now) }
    ensures of_bytes { IfErr result IsOfBytes }
{
    match users.principal(alloc, common.user.as_str().as_bytes()) {
        Ok(Some(who)) => Ok(who),
        Ok(None) => refused(2, note::word_refused(alloc, common.user_at)?),
        Err(_) => Err(Halt::Memory),
    }
}

// What is written of a snapshot for the word USER.
#[tactic(auto, using(crate::proofs::SearchLemmas::users))]
fn ask_by<R: Threads + Wait + Sync, G: Gate + Sync>(
    walkers: &Walkers<'_, R, G>,
    alloc: Global,
    common: &Common,
    question: &Question<'_>,
    users: &Users,
    snap: Snapshot,
) -> Result<Output, Halt>
    ensures text { Gives text_view result (asked_by common.now (asks question.now) users.now snap) }
    ensures of_bytes { IfErr result IsOfBytes }
{
    match principal_of(alloc, common, users) {
        Ok(who) => {
            let output = question.answer(walkers, alloc, users, snap, &who, &common.start);
            drop(who);
            output
        }
        Err(halt) => {
            drop(snap);
            Err(halt)
        }
    }
}

// The same over the index's file.
#[tactic(auto, using(crate::proofs::SearchLemmas::indexes, crate::proofs::SearchLemmas::refusals, crate::proofs::StepLemmas::cause_of_bytes))]
fn ask_index<R: Threads + Wait + Sync, F: Shelf, G: Gate + Sync>(
    walkers: &Walkers<'_, R, G>,
    alloc: Global,
    shelf: &mut F,
    common: &Common,
    question: &Question<'_>,
    users: &Users,
) -> Result<Output, Halt>
    ensures text { GivesOver (F.files shelf.old) text_view result (index_over common.now (asks question.now) users.now) }
    ensures words { IfErr result (OfWordsOnlyBy (AskMayRefuse common.now (asks question.now))) }
    ensures cause { IfErr result (HaltHasCause F.Shelf shelf.old shelf.new) }
    ensures kept { Keeps F.Shelf shelf.old shelf.new }
{
    let index = common.index.as_str();
    match read_index(alloc, shelf, index, common.delim, common.limit) {
        Ok(snap) => ask_by(walkers, alloc, common, question, users, snap),
        Err(halt) => Err(halt),
    }
}

/// What a command with a USER and a START writes: the files are read in the order passwd, group and index; then USER is
/// judged, then the query words, then the start.
#[tactic(auto, using(crate::proofs::SearchLemmas::asks, crate::proofs::SearchLemmas::refusals, crate::proofs::StepLemmas::cause_later))]
pub(crate) fn ask<R: Threads + Wait + Sync, F: Shelf, G: Gate + Sync>(
    walkers: &Walkers<'_, R, G>,
    alloc: Global,
    shelf: &mut F,
    common: &Common,
    question: &Question<'_>,
) -> Result<Output, Halt>
    ensures text { GivesOver (F.files shelf.old) text_view result (ask_over common.now (asks question.now)) }
    ensures words { IfErr result (OfWordsOnlyBy (AskMayRefuse common.now (asks question.now))) }
    ensures cause { IfErr result (HaltHasCause F.Shelf shelf.old shelf.new) }
    ensures kept { Keeps F.Shelf shelf.old shelf.new }
{
    match read_users(alloc, shelf, &common.passwd, &common.group) {
        Ok(users) => {
            let output = ask_index(walkers, alloc, shelf, common, question, &users);
            drop(users);
            output
        }
        Err(halt) => Err(halt),
    }
}
