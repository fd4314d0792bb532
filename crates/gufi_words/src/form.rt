//! The form of each command: its positionals, and what it is made of.

ghost use Rattle.std.specs.Prelude.{◌≡◌, ◌+◌, ◌≤◌, length};
ghost use Rattle.gufi_base.specs.Basics.{GivesUnless};
ghost use Rattle.gufi_words.specs.WordTexts.{texts};
ghost use Rattle.gufi_words.specs.CommandWords.{common_of, walk_of, trace2index_of, rollup_of, index2trace_of, info_of, refresh_of, query_of, agg_of, find_of, du_of, ls_of, stat_of, stats_of, diff_of, session_of, gen_of, command_of, read_words};

use crate::command::{Command, Common};
use crate::name::CommandName;
use crate::option::{Arguments, Options, read_options};
use crate::positional::{
    command_at, count_at, delimiter_at, file_at, gids_at, no_more, report_at, start_at, text_at,
    u32_at, words_from,
};
use crate::word::{WordError, refused_at};
use gufi_base::number_at;
use std::alloc::Global;

/// INDEX USER START, from a place on.
#[tactic(auto, unfolding(crate::specs::CommandWords::common_of))]
fn common_of(
    alloc: Global,
    words: &[String],
    place: usize,
    options: Options,
) -> Result<Common, WordError>
    requires { place ≤ 1 + length words.now }
    ensures { GivesUnless WordError.Memory result (common_of (texts words.now) place options) }
{
    let index = file_at(alloc, words, place)?;
    let user = text_at(alloc, words, place + 1)?;
    let start = start_at(alloc, words, place + 2)?;
    Ok(Common {
        delim: options.delim_or_default(),
        limit: options.limit_or_default(),
        workers: options.workers_or_default(),
        passwd: options.passwd,
        group: options.group,
        index,
        user,
        user_at: number_at(place + 1),
        start,
    })
}

#[tactic(auto, unfolding(crate::specs::CommandWords::walk_of))]
fn walk_of(alloc: Global, words: &[String], arguments: Arguments) -> Result<Command, WordError>
    requires { arguments.first ≤ length words.now }
    ensures { GivesUnless WordError.Memory result (walk_of (texts words.now) arguments) }
{
    let trace = file_at(alloc, words, arguments.first)?;
    let uid = u32_at(words, arguments.first + 1)?;
    let gids = gids_at(alloc, words, arguments.first + 2)?;
    let delim = delimiter_at(words, arguments.first + 3)?;
    no_more(words, arguments.first + 4)?;
    Ok(Command::Walk {
        trace,
        uid,
        gids,
        delim,
    })
}

#[tactic(auto, unfolding(crate::specs::CommandWords::trace2index_of))]
fn trace2index_of(
    alloc: Global,
    words: &[String],
    arguments: Arguments,
) -> Result<Command, WordError>
    requires { arguments.first ≤ length words.now }
    ensures { GivesUnless WordError.Memory result (trace2index_of (texts words.now) arguments) }
{
    let trace = file_at(alloc, words, arguments.first)?;
    no_more(words, arguments.first + 1)?;
    Ok(Command::Trace2index {
        trace,
        delim: arguments.options.delim_or_default(),
    })
}

#[tactic(auto, unfolding(crate::specs::CommandWords::rollup_of))]
fn rollup_of(alloc: Global, words: &[String], arguments: Arguments) -> Result<Command, WordError>
    requires { arguments.first ≤ length words.now }
    ensures { GivesUnless WordError.Memory result (rollup_of (texts words.now) arguments) }
{
    let index = file_at(alloc, words, arguments.first)?;
    no_more(words, arguments.first + 1)?;
    let limit = arguments.options.limit.ok_or(refused_at(words.len()))?;
    Ok(Command::Rollup {
        index,
        delim: arguments.options.delim_or_default(),
        limit,
    })
}

#[tactic(auto, unfolding(crate::specs::CommandWords::index2trace_of))]
fn index2trace_of(
    alloc: Global,
    words: &[String],
    arguments: Arguments,
) -> Result<Command, WordError>
    requires { arguments.first ≤ length words.now }
    ensures { GivesUnless WordError.Memory result (index2trace_of (texts words.now) arguments) }
{
    let index = file_at(alloc, words, arguments.first)?;
    no_more(words, arguments.first + 1)?;
    Ok(Command::Index2trace {
        index,
        delim: arguments.options.delim_or_default(),
    })
}

#[tactic(auto, unfolding(crate::specs::CommandWords::info_of))]
fn info_of(alloc: Global, words: &[String], arguments: Arguments) -> Result<Command, WordError>
    requires { arguments.first ≤ length words.now }
    ensures { GivesUnless WordError.Memory result (info_of (texts words.now) arguments) }
{
    let index = file_at(alloc, words, arguments.first)?;
    no_more(words, arguments.first + 1)?;
    Ok(Command::Info {
        index,
        delim: arguments.options.delim_or_default(),
        limit: arguments.options.limit_or_default(),
    })
}

#[tactic(auto, unfolding(crate::specs::CommandWords::refresh_of))]
fn refresh_of(alloc: Global, words: &[String], arguments: Arguments) -> Result<Command, WordError>
    requires { arguments.first ≤ length words.now }
    ensures { GivesUnless WordError.Memory result (refresh_of (texts words.now) arguments) }
{
    let index = file_at(alloc, words, arguments.first)?;
    let path = start_at(alloc, words, arguments.first + 1)?;
    let trace = file_at(alloc, words, arguments.first + 2)?;
    no_more(words, arguments.first + 3)?;
    let limit = arguments.options.limit.ok_or(refused_at(words.len()))?;
    Ok(Command::Refresh {
        index,
        delim: arguments.options.delim_or_default(),
        limit,
        path,
        trace,
    })
}

#[tactic(auto, unfolding(crate::specs::CommandWords::query_of))]
fn query_of(alloc: Global, words: &[String], arguments: Arguments) -> Result<Command, WordError>
    requires { arguments.first ≤ length words.now }
    ensures { GivesUnless WordError.Memory result (query_of (texts words.now) arguments) }
{
    let Arguments { options, first } = arguments;
    let escape = options.escape;
    let header = options.header;
    let json = options.json;
    let common = common_of(alloc, words, first, options)?;
    let text = text_at(alloc, words, first + 3)?;
    no_more(words, first + 4)?;
    Ok(Command::Query {
        common,
        escape,
        header,
        json,
        text,
    })
}

#[tactic(auto, unfolding(crate::specs::CommandWords::agg_of))]
fn agg_of(alloc: Global, words: &[String], arguments: Arguments) -> Result<Command, WordError>
    requires { arguments.first ≤ length words.now }
    ensures { GivesUnless WordError.Memory result (agg_of (texts words.now) arguments) }
{
    let Arguments { options, first } = arguments;
    let names = options.names;
    let common = common_of(alloc, words, first, options)?;
    let text = text_at(alloc, words, first + 3)?;
    no_more(words, first + 4)?;
    Ok(Command::Agg {
        common,
        names,
        text,
    })
}

#[tactic(auto, unfolding(crate::specs::CommandWords::find_of, crate::specs::CommandWords::common_of))]
fn find_of(alloc: Global, words: &[String], arguments: Arguments) -> Result<Command, WordError>
    requires { arguments.first ≤ length words.now }
    ensures { GivesUnless WordError.Memory result (find_of (texts words.now) arguments) }
{
    let Arguments { mut options, first } = arguments;
    let now = options.time;
    let prefix = options.prefix.take();
    let common = common_of(alloc, words, first, options)?;
    let words = words_from(alloc, words, first + 3)?;
    Ok(Command::Find {
        common,
        now,
        prefix,
        words,
    })
}

#[tactic(auto, unfolding(crate::specs::CommandWords::du_of))]
fn du_of(alloc: Global, words: &[String], arguments: Arguments) -> Result<Command, WordError>
    requires { arguments.first ≤ length words.now }
    ensures { GivesUnless WordError.Memory result (du_of (texts words.now) arguments) }
{
    let Arguments { options, first } = arguments;
    let now = options.time;
    let common = common_of(alloc, words, first, options)?;
    let depth = u32_at(words, first + 3)?;
    let words = words_from(alloc, words, first + 4)?;
    Ok(Command::Du {
        common,
        now,
        depth,
        words,
    })
}

#[tactic(auto, unfolding(crate::specs::CommandWords::ls_of))]
fn ls_of(alloc: Global, words: &[String], arguments: Arguments) -> Result<Command, WordError>
    requires { arguments.first ≤ length words.now }
    ensures { GivesUnless WordError.Memory result (ls_of (texts words.now) arguments) }
{
    let Arguments { options, first } = arguments;
    let long = options.long;
    let all = options.all;
    let common = common_of(alloc, words, first, options)?;
    no_more(words, first + 3)?;
    Ok(Command::Ls { common, long, all })
}

#[tactic(auto, unfolding(crate::specs::CommandWords::stat_of))]
fn stat_of(alloc: Global, words: &[String], arguments: Arguments) -> Result<Command, WordError>
    requires { arguments.first ≤ length words.now }
    ensures { GivesUnless WordError.Memory result (stat_of (texts words.now) arguments) }
{
    let Arguments { options, first } = arguments;
    let common = common_of(alloc, words, first, options)?;
    no_more(words, first + 3)?;
    Ok(Command::Stat { common })
}

#[tactic(auto, unfolding(crate::specs::CommandWords::stats_of))]
fn stats_of(alloc: Global, words: &[String], arguments: Arguments) -> Result<Command, WordError>
    requires { arguments.first ≤ length words.now }
    ensures { GivesUnless WordError.Memory result (stats_of (texts words.now) arguments) }
{
    let Arguments { options, first } = arguments;
    let names = options.names;
    let common = common_of(alloc, words, first, options)?;
    let report = report_at(words, first + 3)?;
    no_more(words, first + 4)?;
    Ok(Command::Stats {
        common,
        names,
        report,
    })
}

#[tactic(auto, unfolding(crate::specs::CommandWords::diff_of))]
fn diff_of(alloc: Global, words: &[String], arguments: Arguments) -> Result<Command, WordError>
    requires { arguments.first ≤ length words.now }
    ensures { GivesUnless WordError.Memory result (diff_of (texts words.now) arguments) }
{
    let Arguments { options, first } = arguments;
    let old = file_at(alloc, words, first)?;
    let common = common_of(alloc, words, first + 1, options)?;
    no_more(words, first + 4)?;
    Ok(Command::Diff { old, common })
}

#[tactic(auto, unfolding(crate::specs::CommandWords::session_of))]
fn session_of(alloc: Global, words: &[String], arguments: Arguments) -> Result<Command, WordError>
    requires { arguments.first ≤ length words.now }
    ensures { GivesUnless WordError.Memory result (session_of (texts words.now) arguments) }
{
    let Arguments { options, first } = arguments;
    let script = file_at(alloc, words, first)?;
    no_more(words, first + 1)?;
    Ok(Command::Session {
        delim: options.delim_or_default(),
        workers: options.workers_or_default(),
        cache: options.cache_or_default(),
        passwd: options.passwd,
        group: options.group,
        now: options.time,
        script,
    })
}

#[tactic(auto, unfolding(crate::specs::CommandWords::gen_of))]
fn gen_of(words: &[String], arguments: Arguments) -> Result<Command, WordError>
    requires { arguments.first ≤ length words.now }
    ensures { result ≡ gen_of (texts words.now) arguments }
{
    let n = count_at(words, arguments.first)?;
    no_more(words, arguments.first + 1)?;
    Ok(Command::Gen {
        n,
        delim: arguments.options.delim_or_default(),
        workers: arguments.options.workers_or_default(),
        summary: arguments.options.summary,
    })
}

/// The command of a name with these options, and with the positionals from their first on.
fn command_of(
    alloc: Global,
    name: CommandName,
    words: &[String],
    arguments: Arguments,
) -> Result<Command, WordError>
    requires { arguments.first ≤ length words.now }
    ensures { GivesUnless WordError.Memory result (command_of name (texts words.now) arguments) }
{
    match name {
        CommandName::Walk => walk_of(alloc, words, arguments),
        CommandName::Trace2index => trace2index_of(alloc, words, arguments),
        CommandName::Rollup => rollup_of(alloc, words, arguments),
        CommandName::Index2trace => index2trace_of(alloc, words, arguments),
        CommandName::Info => info_of(alloc, words, arguments),
        CommandName::Refresh => refresh_of(alloc, words, arguments),
        CommandName::Query => query_of(alloc, words, arguments),
        CommandName::Agg => agg_of(alloc, words, arguments),
        CommandName::Find => find_of(alloc, words, arguments),
        CommandName::Du => du_of(alloc, words, arguments),
        CommandName::Ls => ls_of(alloc, words, arguments),
        CommandName::Stat => stat_of(alloc, words, arguments),
        CommandName::Stats => stats_of(alloc, words, arguments),
        CommandName::Diff => diff_of(alloc, words, arguments),
        CommandName::Session => session_of(alloc, words, arguments),
        CommandName::Gen => gen_of(words, arguments),
    }
}

/// The command that the words are, the first of which is its name. The program's own name is not among them.
///
/// Words are counted from 1. No file is read: users, texts of queries and words of expressions are judged later.
#[tactic(auto, unfolding(crate::specs::CommandWords::read_words))]
pub fn read_words(alloc: Global, words: &[String]) -> Result<Command, WordError>
    ensures { GivesUnless WordError.Memory result (read_words (texts words.now)) }
{
    let name = command_at(words, 0)?;
    let arguments = read_options(alloc, name, words)?;
    command_of(alloc, name, words, arguments)
}
