//! Commands.
ghost use Rattle.std.specs.Prelude.{◌≡◌, IfErr, IfOk, IsTrue};
ghost use Rattle.gufi_io.specs.Kept.{Keeps};
ghost use Rattle.gufi_top.specs.Views.{text_view};
ghost use Rattle.gufi_access.specs.Access.{principal};
ghost use Rattle.gufi_words.specs.CommandWords.{is_delimited};
ghost use Rattle.gufi_top.specs.Verdict.{walk_over, command_over, is_one_shot, MayRefuse};
ghost use Rattle.gufi_top.specs.Calls.{GivesOver, OfWordsOnlyBy, IsPastWords, HaltHasCause};

use crate::diff::diff;
use crate::generate::generate;
use crate::halt::{Halt, Output};
use crate::index2trace::index2trace;
use crate::info::info;
use crate::question::Question;
use crate::refresh::{Replacement, refresh};
use crate::rollup::{rollup, trace2index};
use crate::search::ask;
use crate::walk::walk;
use gufi_access::{GroupList, Principal};
use gufi_base::Nums;
use gufi_io::{Gate, Shelf};
use gufi_walk::Walkers;
use gufi_words::Command;
use std::alloc::{AllocError, Global};
use std::sync::Wait;
use std::thread::Threads;

fn principal_of(alloc: Global, uid: u32, gids: &Nums) -> Result<Principal, AllocError>
    ensures { IfOk result (λ who. who ≡ principal uid gids.now) }
{
    let groups = Vec::from_slice(alloc, gids.as_slice())?;
    Ok(Principal {
        uid,
        groups: GroupList::indexed(alloc, groups)?,
    })
}

// What `walk` writes for a principal in numbers.
fn walk_as<R: Threads + Wait + Sync, F: Shelf, G: Gate + Sync>(
    walkers: &Walkers<'_, R, G>,
    alloc: Global,
    shelf: &mut F,
    trace: &str,
    uid: u32,
    gids: &Nums,
    delim: u8,
) -> Result<Output, Halt>
    ensures text { GivesOver (F.files shelf.old) text_view result (walk_over trace.now (principal uid gids.now) delim) }
    ensures past_words { IfErr result IsPastWords }
    ensures cause { IfErr result (HaltHasCause F.Shelf shelf.old shelf.new) }
    ensures kept { Keeps F.Shelf shelf.old shelf.new }
{
    match principal_of(alloc, uid, gids) {
        Ok(who) => walk(walkers, alloc, shelf, trace, &who, delim),
        Err(_) => Err(Halt::Memory),
    }
}

/// By how many workers a command is answered: as many as it states, and 1 where it can't.
pub(crate) fn workers_of(command: &Command) -> u32 {
    match command {
        Command::Find { common, .. }
        | Command::Diff { common, .. }
        | Command::Query { common, .. }
        | Command::Agg { common, .. }
        | Command::Ls { common, .. }
        | Command::Stat { common }
        | Command::Stats { common, .. } => common.workers,
        Command::Session { workers, .. } | Command::Gen { workers, .. } => *workers,
        Command::Walk { .. }
        | Command::Du { .. }
        | Command::Trace2index { .. }
        | Command::Rollup { .. }
        | Command::Index2trace { .. }
        | Command::Info { .. }
        | Command::Refresh { .. } => 1,
    }
}

/// What a command writes of which the whole text is made first.
#[tactic(auto, using(crate::proofs::StepLemmas::given_over, crate::proofs::StepLemmas::cause_of_bytes, crate::proofs::SearchLemmas::refusals), unfolding(crate::specs::Verdict::command_over))]
pub(crate) fn answer_command<R: Threads + Wait + Sync, F: Shelf, G: Gate + Sync>(
    walkers: &Walkers<'_, R, G>,
    alloc: Global,
    command: &Command,
    shelf: &mut F,
) -> Result<Output, Halt>
    requires one_shot { IsTrue (is_one_shot command.now) }
    requires delimited { IsTrue (is_delimited command.now) }
    ensures text { GivesOver (F.files shelf.old) text_view result (command_over command.now) }
    ensures words { IfErr result (OfWordsOnlyBy (MayRefuse command.now)) }
    ensures cause { IfErr result (HaltHasCause F.Shelf shelf.old shelf.new) }
    ensures kept { Keeps F.Shelf shelf.old shelf.new }
{
    match command {
        Command::Walk {
            trace,
            uid,
            gids,
            delim,
        } => walk_as(walkers, alloc, shelf, trace.as_str(), *uid, gids, *delim),
        Command::Trace2index { trace, delim } => {
            trace2index(alloc, shelf, trace.as_str(), *delim)
        }
        Command::Rollup {
            index,
            delim,
            limit,
        } => rollup(alloc, shelf, index.as_str(), *delim, *limit),
        Command::Index2trace { index, delim } => index2trace(alloc, shelf, index.as_str(), *delim),
        Command::Info {
            index,
            delim,
            limit,
        } => info(alloc, shelf, index.as_str(), *delim, *limit),
        Command::Refresh {
            index,
            delim,
            limit,
            path,
            trace,
        } => {
            let asked = Replacement {
                index,
                delim: *delim,
                limit: *limit,
                path,
                trace,
            };
            refresh(alloc, shelf, asked)
        }
        Command::Find {
            common,
            now,
            prefix,
            words,
        } => {
            let question = Question::find(common, *now, prefix, words);
            ask(walkers, alloc, shelf, common, &question)
        }
        Command::Du {
            common,
            now,
            depth,
            words,
        } => {
            let question = Question::usages(common, *now, *depth, words);
            ask(walkers, alloc, shelf, common, &question)
        }
        Command::Query {
            common,
            escape,
            header,
            json,
            text,
        } => {
            let question = Question::query(common, *escape, *header, *json, text);
            ask(walkers, alloc, shelf, common, &question)
        }
        Command::Agg {
            common,
            names,
            text,
        } => {
            let question = Question::agg(common, *names, text);
            ask(walkers, alloc, shelf, common, &question)
        }
        Command::Ls { common, long, all } => {
            let question = Question::Ls {
                long: *long,
                all: *all,
            };
            ask(walkers, alloc, shelf, common, &question)
        }
        Command::Stat { common } => ask(walkers, alloc, shelf, common, &Question::Stat),
        Command::Stats {
            common,
            names,
            report,
        } => {
            let question = Question::stats(*names, *report);
            ask(walkers, alloc, shelf, common, &question)
        }
        Command::Diff { old, common } => diff(walkers, alloc, shelf, old.as_str(), common),
        Command::Gen {
            n,
            delim,
            summary,
            ..
        } => generate(alloc, *n, *delim, *summary),
        Command::Session { .. } => unreachable!(),
    }
}
