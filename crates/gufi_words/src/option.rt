//! The options of a command, in the order in which they come.

ghost use Rattle.std.specs.Prelude.{◌≡◌, ◌<◌, ◌≤◌, IfOk, length, drop, option_map};
ghost use Rattle.gufi_base.specs.Basics.{GivesUnless};
ghost use Rattle.gufi_words.specs.WordTexts.{texts};
ghost use Rattle.gufi_words.specs.WordOptions.{no_options, has_option, excludes, put, delim_or_default, limit_or_default, workers_or_default, cache_or_default, start, before_equals, after_equals, is_positional, step_with, step_named, step_free, step_at, read_options};

use crate::name::{CommandName, OptionName};
use crate::value::{
    DEFAULT_DELIMITER, read_cache, read_delimiter, read_file, read_workers, text_of,
};
use crate::word::{WordError, refused_at};
use gufi_base::{Text, read_i64, read_u64};
use std::alloc::{AllocError, Global};

/// The options that a command was given, each as what its value spells.
#[derive(Drop)]
pub(crate) struct Options {
    pub(crate) passwd: Option<Text>,
    pub(crate) group: Option<Text>,
    pub(crate) delim: Option<u8>,
    pub(crate) limit: Option<u64>,
    pub(crate) workers: Option<u32>,
    /// The value of `--now`, in seconds.
    pub(crate) time: Option<i64>,
    /// How many replies each lane keeps.
    pub(crate) cache: Option<u32>,
    pub(crate) prefix: Option<Text>,
    pub(crate) long: bool,
    pub(crate) all: bool,
    pub(crate) summary: bool,
    pub(crate) names: bool,
    pub(crate) escape: bool,
    pub(crate) header: bool,
    pub(crate) json: bool,
}

/// The options so far, and the one whose value comes next.
#[derive(Drop)]
struct Reading {
    options: Options,
    waiting: Option<OptionName>,
}

/// What a word does in the place of an option.
#[derive(Drop)]
enum Step {
    /// It is an option, or the value of one.
    Taken(Reading),
    /// It is `--`.
    Dropped(Options),
    /// It is the first positional.
    Positional(Options),
    Refused,
}

/// The options of a command, and the place of its first positional.
#[derive(Drop)]
pub(crate) struct Arguments {
    pub(crate) options: Options,
    pub(crate) first: usize,
}

impl Options {
    fn none() -> Options
        ensures { result ≡ no_options }
    {
        Options {
            passwd: None,
            group: None,
            delim: None,
            limit: None,
            workers: None,
            time: None,
            cache: None,
            prefix: None,
            long: false,
            all: false,
            summary: false,
            names: false,
            escape: false,
            header: false,
            json: false,
        }
    }

    /// Whether the option is among them.
    fn has(&self, name: OptionName) -> bool
        ensures { result ≡ has_option self.now name }
    {
        match name {
            OptionName::Passwd => self.passwd.is_some(),
            OptionName::Group => self.group.is_some(),
            OptionName::Delim => self.delim.is_some(),
            OptionName::Limit => self.limit.is_some(),
            OptionName::Workers => self.workers.is_some(),
            OptionName::Now => self.time.is_some(),
            OptionName::Cache => self.cache.is_some(),
            OptionName::Prefix => self.prefix.is_some(),
            OptionName::Long => self.long,
            OptionName::All => self.all,
            OptionName::Summary => self.summary,
            OptionName::Names => self.names,
            OptionName::Escape => self.escape,
            OptionName::Header => self.header,
            OptionName::Json => self.json,
        }
    }

    /// Whether one of them may not stand beside the option.
    fn excludes(&self, name: OptionName) -> bool
        ensures { result ≡ excludes self.now name }
    {
        match name {
            OptionName::Escape | OptionName::Header => self.json,
            OptionName::Json => self.escape || self.header,
            _ => false,
        }
    }

    /// The options with one more, which is left out where its value can't be taken.
    fn put(mut self, alloc: Global, name: OptionName, value: &str) -> Result<Options, AllocError>
        ensures { IfOk result (λ options. options ≡ put self name value.now) }
    {
        match name {
            OptionName::Passwd => self.passwd = read_file(alloc, value)?,
            OptionName::Group => self.group = read_file(alloc, value)?,
            OptionName::Delim => self.delim = read_delimiter(value),
            OptionName::Limit => self.limit = read_u64(value.as_bytes()),
            OptionName::Workers => self.workers = read_workers(value),
            OptionName::Now => self.time = read_i64(value.as_bytes()),
            OptionName::Cache => self.cache = read_cache(value),
            OptionName::Prefix => self.prefix = Some(text_of(alloc, value)?),
            OptionName::Long => self.long = true,
            OptionName::All => self.all = true,
            OptionName::Summary => self.summary = true,
            OptionName::Names => self.names = true,
            OptionName::Escape => self.escape = true,
            OptionName::Header => self.header = true,
            OptionName::Json => self.json = true,
        }
        Ok(self)
    }

    pub(crate) fn delim_or_default(&self) -> u8
        ensures { result ≡ delim_or_default self.now }
    {
        self.delim.unwrap_or(DEFAULT_DELIMITER)
    }

    pub(crate) fn limit_or_default(&self) -> u64
        ensures { result ≡ limit_or_default self.now }
    {
        self.limit.unwrap_or(0)
    }

    pub(crate) fn workers_or_default(&self) -> u32
        ensures { result ≡ workers_or_default self.now }
    {
        self.workers.unwrap_or(1)
    }

    pub(crate) fn cache_or_default(&self) -> u32
        ensures { result ≡ cache_or_default self.now }
    {
        self.cache.unwrap_or(0)
    }
}

/// The name of an option, and the value behind its first `=`.
fn name_and_value(word: &str) -> (&str, Option<&str>)
    ensures name { result.0.now ≡ before_equals word.now }
    ensures value { option_map (λ value. value.now) result.1 ≡ after_equals word.now }
{
    match word.split_once('=') {
        Some((name, value)) => (name, Some(value)),
        None => (word, None),
    }
}

/// Whether a word is no option, nor the end of them.
fn is_positional(word: &str) -> bool
    ensures { result ≡ is_positional word.now }
{
    !word.starts_with("-") || word == "-"
}

/// The option is given this value.
fn step_with(
    alloc: Global,
    options: Options,
    name: OptionName,
    value: &str,
) -> Result<Step, AllocError>
    ensures { IfOk result (λ step. step ≡ step_with options name value.now) }
{
    let options = options.put(alloc, name, value)?;
    if !options.has(name) {
        return Ok(Step::Refused);
    }
    let waiting = None;
    Ok(Step::Taken(Reading { options, waiting }))
}

/// The option is named, with a value in the same word perhaps.
fn step_named(
    alloc: Global,
    options: Options,
    name: OptionName,
    value: Option<&str>,
) -> Result<Step, AllocError>
    ensures { IfOk result (λ step. step ≡ step_named options name (option_map (λ value. value.now) value.entry)) }
{
    match value {
        Some(value) => {
            if !name.takes_value() {
                return Ok(Step::Refused);
            }
            step_with(alloc, options, name, value)
        }
        None => {
            if !name.takes_value() {
                return step_with(alloc, options, name, "");
            }
            let waiting = Some(name);
            Ok(Step::Taken(Reading { options, waiting }))
        }
    }
}

/// A word comes, and no value is waited for.
#[tactic(auto, unfolding(crate::specs::WordOptions::step_free))]
fn step_free(
    alloc: Global,
    command: CommandName,
    options: Options,
    word: &str,
) -> Result<Step, AllocError>
    ensures { IfOk result (λ step. step ≡ step_free command options word.now) }
{
    if is_positional(word) {
        return Ok(Step::Positional(options));
    }
    if word == "--" {
        return Ok(Step::Dropped(options));
    }
    let (name, value) = name_and_value(word);
    match OptionName::of(name) {
        Some(name) if command.allows(name) && !(options.has(name) || options.excludes(name)) => {
            step_named(alloc, options, name, value)
        }
        _ => Ok(Step::Refused),
    }
}

impl Reading {
    fn start() -> Reading
        ensures { result ≡ start }
    {
        Reading {
            options: Options::none(),
            waiting: None,
        }
    }

    /// A word comes.
    #[tactic(auto, unfolding(crate::specs::WordOptions::step_at))]
    fn step(self, alloc: Global, command: CommandName, word: &str) -> Result<Step, AllocError>
        ensures { IfOk result (λ step. step ≡ step_at command self word.now) }
    {
        match self.waiting {
            Some(name) => step_with(alloc, self.options, name, word),
            None => step_free(alloc, command, self.options, word),
        }
    }
}

/// Reads the options among a command's words, which stand behind its name.
#[tactic(auto, using(crate::proofs::Options::reading_options))]
pub(crate) fn read_options(
    alloc: Global,
    command: CommandName,
    words: &[String],
) -> Result<Arguments, WordError>
    requires { 0 < length words.now }
    ensures value { GivesUnless WordError.Memory result (read_options command start 1 (drop 1 (texts words.now))) }
    ensures within { IfOk result (λ arguments. arguments.first ≤ length words.now) }
{
    let mut reading = Reading::start();
    for place in 1..words.len() {
        match reading.step(alloc, command, words[place].as_str())? {
            Step::Taken(next) => reading = next,
            Step::Dropped(options) => {
                let first = place + 1;
                return Ok(Arguments { options, first });
            }
            Step::Positional(options) => {
                let first = place;
                return Ok(Arguments { options, first });
            }
            Step::Refused => return Err(refused_at(place)),
        }
    }
    let first = words.len();
    match reading.waiting {
        Some(_) => Err(refused_at(first)),
        None => {
            let options = reading.options;
            Ok(Arguments { options, first })
        }
    }
}
