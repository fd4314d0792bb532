//! What the commands with a USER and a START ask.
ghost use Rattle.std.specs.Prelude.{◌≡◌, ◌+◌, Err, IfErr, IfOk};
ghost use Rattle.std.specs.Option.{option_copied};
ghost use Rattle.gufi_base.specs.Basics.{capped_number};
ghost use Rattle.gufi_find.specs.Expressions.{Find as SeenFind};
ghost use Rattle.gufi_find.specs.Faults.{find_kind_text};
ghost use Rattle.gufi_select.specs.Columns.{Select as SeenSelect};
ghost use Rattle.gufi_select.specs.Faults.{select_kind_text};
ghost use Rattle.gufi_agg.specs.Aggs.{Agg as SeenAgg};
ghost use Rattle.gufi_agg.specs.Faults.{agg_kind_text};
ghost use Rattle.gufi_ask.specs.Asks.{find_ask, usage_ask, query_ask, agg_ask};
ghost use Rattle.gufi_top.specs.Questions.{asks};
ghost use Rattle.gufi_top.specs.Reasons.{word_fault, text_fault, column_twice};
ghost use Rattle.gufi_top.specs.Views.{text_view};
ghost use Rattle.gufi_top.specs.Verdict.{asked, asked_if, expression_in, find_asking, usage_asking, named_by, stats_asking, report_of, form_of, twice_in, written_in, select_in, query_asked, query_asking, agg_in, agg_asking};
ghost use Rattle.gufi_top.specs.Calls.{Gives, IsOfBytes};

use crate::halt::{Halt, Output, refused};
use crate::note;
use crate::start::{written, written_over};
use gufi_access::Principal;
use gufi_agg::{Agg, AggError, AggKind, read_agg};
use gufi_ask::{
    find_text, groups_text, listing_text, query_text, ready_to_find, ready_to_select, record_text,
    report_text, usages_text,
};
use gufi_base::{Bytes, Items, Path, Text, capped_u32};
use gufi_find::{FindError, FindExpr, FindKind, read_find};
use gufi_forms::{Form, first_twice};
use gufi_io::Gate;
use gufi_select::{Column, Select, SelectError, SelectKind, read_select};
use gufi_snap::Snapshot;
use gufi_stats::Report;
use gufi_users::Users;
use gufi_walk::Walkers;
use gufi_words::{Common, ReportWord};
use std::alloc::{AllocError, Global};
use std::sync::Wait;
use std::thread::Threads;

/// The words of an expression.
#[derive(Clone, Copy)]
struct Expression<'a> {
    /// The number of the word behind which one more stands, and then the expression.
    before: usize,
    /// From which times count back, in seconds.
    moment: Option<i64>,
    words: &'a [Text],
}

/// The rows for which an expression is true.
#[derive(Clone, Copy)]
pub(crate) struct Find<'a> {
    expression: Expression<'a>,
    /// What stands before each path.
    prefix: Option<&'a Text>,
}

/// What the rows take up for which an expression is true, in lines of directories.
#[derive(Clone, Copy)]
pub(crate) struct Usages<'a> {
    expression: Expression<'a>,
    /// How many levels below the start directories have lines.
    depth: u32,
}

// The number of a word of an expression; the last that can be told stands for all above it.
fn expression_word(before: usize, word: u32) -> u32
    ensures { result ≡ capped_number (before + 1 + word) }
{
    capped_u32(before.saturating_add(1).saturating_add(word as usize))
}

// An expression isn't read: a word is faulty.
fn refuse_word<T>(alloc: Global, word: u32, kind: FindKind) -> Result<T, Halt>
    ensures reason { Gives (λ (x : T). x) result (Err (word_fault word (find_kind_text kind))) }
    ensures of_bytes { IfErr result IsOfBytes }
{
    refused(2, note::find_word(alloc, word, kind)?)
}

// The bytes of each word.
fn bytes_of(alloc: Global, words: &[Text]) -> Result<Vec<Bytes>, AllocError>
    ensures { IfOk result (λ copies. copies.items ≡ words.now) }
{
    let mut copies = Vec::with_capacity(alloc, words.len())?;
    'words: for word in words {
        copies.push(Bytes::from_slice(alloc, word.as_str().as_bytes())?)?;
    }
    Ok(copies)
}

impl Expression<'_> {
    // The expression that the words are.
    fn read(&self, alloc: Global, users: &Users) -> Result<FindExpr, Halt>
        ensures expression { Gives (λ (f : SeenFind). f) result (expression_in self.now.before self.now.moment self.now.words.now users.now) }
        ensures of_bytes { IfErr result IsOfBytes }
    {
        let words = bytes_of(alloc, self.words)?;
        match read_find(alloc, words.as_slice(), users, self.moment) {
            Ok(expression) => Ok(expression),
            Err(FindError::Fault { word, kind }) => {
                refuse_word(alloc, expression_word(self.before, word), kind)
            }
            Err(FindError::Memory) => Err(Halt::Memory),
        }
    }
}

/// The columns of the rows for which a SELECT is true.
#[derive(Clone, Copy)]
pub(crate) struct Query<'a> {
    /// The number of the word USER, behind which START and the text stand.
    user_at: u32,
    form: Form,
    text: &'a [u8],
}

// The number of the word that is a query's text; the last that can be told stands for all above it.
fn text_word(user_at: u32) -> u32
    ensures { result ≡ capped_number (user_at + 2) }
{
    user_at.saturating_add(2)
}

// A query isn't read: its text is faulty at an offset.
fn refuse_text<T>(alloc: Global, word: u32, offset: u32, kind: SelectKind) -> Result<T, Halt>
    ensures reason { Gives (λ (x : T). x) result (Err (text_fault word offset (select_kind_text kind))) }
    ensures of_bytes { IfErr result IsOfBytes }
{
    refused(2, note::select_word(alloc, word, offset, kind)?)
}

// A query isn't answered in a form: a column is named twice.
fn refuse_column<T>(alloc: Global, user_at: u32, column: Column) -> Result<T, Halt>
    ensures reason { Gives (λ (x : T). x) result (Err (column_twice user_at column)) }
    ensures of_bytes { IfErr result IsOfBytes }
{
    refused(2, note::column_twice(alloc, text_word(user_at), column)?)
}

// The form of a query's rows, by its options.
fn form_of(escape: bool, header: bool, json: bool) -> Form
    ensures { result ≡ form_of escape header json }
{
    if json {
        Form::Json
    } else {
        Form::Lines { escape, header }
    }
}

// A column that is named twice, where each has to be a member of one object.
fn twice_in(form: Form, select: &Select) -> Option<Column>
    ensures { result ≡ twice_in form select.now }
{
    match form {
        Form::Lines { .. } => None,
        Form::Json => first_twice(select),
    }
}

// The SELECT, where its rows can be written in the form.
fn written_in(alloc: Global, user_at: u32, form: Form, select: Select) -> Result<Select, Halt>
    ensures select { Gives (λ (s : SeenSelect). s) result (written_in user_at form select) }
    ensures of_bytes { IfErr result IsOfBytes }
{
    match twice_in(form, &select) {
        None => Ok(select),
        Some(column) => {
            drop(select);
            refuse_column(alloc, user_at, column)
        }
    }
}

impl Query<'_> {
    // The SELECT that the text is.
    #[tactic(auto, using(crate::proofs::SearchLemmas::select_read))]
    fn select(&self, alloc: Global) -> Result<Select, Halt>
        ensures select { Gives (λ (s : SeenSelect). s) result (select_in self.now.user_at self.now.form self.now.text.now) }
        ensures of_bytes { IfErr result IsOfBytes }
    {
        match read_select(alloc, self.text) {
            Ok(select) => written_in(alloc, self.user_at, self.form, select),
            Err(SelectError::Fault { at, kind }) => {
                refuse_text(alloc, text_word(self.user_at), at, kind)
            }
            Err(SelectError::Memory) => Err(Halt::Memory),
        }
    }
}

/// Groups of the rows that a SELECT chooses.
#[derive(Clone, Copy)]
pub(crate) struct Aggregate<'a> {
    /// The number of the word USER, behind which START and the text stand.
    user_at: u32,
    /// Owners and groups are named, not numbered.
    names: bool,
    text: &'a [u8],
}

// An agg isn't read: its text is faulty at an offset.
fn refuse_agg<T>(alloc: Global, word: u32, offset: u32, kind: AggKind) -> Result<T, Halt>
    ensures reason { Gives (λ (x : T). x) result (Err (text_fault word offset (agg_kind_text kind))) }
    ensures of_bytes { IfErr result IsOfBytes }
{
    refused(2, note::agg_word(alloc, word, offset, kind)?)
}

impl Aggregate<'_> {
    // The agg that the text is.
    fn agg(&self, alloc: Global) -> Result<Agg, Halt>
        ensures agg { Gives (λ (a : SeenAgg). a) result (agg_in self.now.user_at self.now.text.now) }
        ensures of_bytes { IfErr result IsOfBytes }
    {
        match read_agg(alloc, self.text) {
            Ok(agg) => Ok(agg),
            Err(AggError::Fault { at, kind }) => {
                refuse_agg(alloc, text_word(self.user_at), at, kind)
            }
            Err(AggError::Memory) => Err(Halt::Memory),
        }
    }
}

// The report that the word asks for.
fn report_of(word: ReportWord) -> Report
    ensures { result ≡ report_of word }
{
    match word {
        ReportWord::Levels => Report::Levels,
        ReportWord::Uids => Report::Uids,
        ReportWord::Gids => Report::Gids,
        ReportWord::Leaves => Report::Leaves,
    }
}

// The users, where owners and groups are to be named.
fn named_by(names: bool, users: &Users) -> Option<&Users>
    ensures { option_copied result ≡ named_by names users.now }
{
    if names { Some(users) } else { None }
}

// What is written of the rows for which an expression is true. Sums are made where it asks for them.
#[tactic(auto, using(crate::proofs::ReplyLemmas::asking))]
fn found<R: Threads + Wait + Sync, G: Gate + Sync>(
    walkers: &Walkers<'_, R, G>,
    alloc: Global,
    snap: Snapshot,
    who: &Principal,
    start: &Path,
    prefix: Option<&Text>,
    expression: FindExpr,
) -> Result<Output, Halt>
    ensures text { Gives text_view result (asked snap.tree who.now start.now (find_ask (option_copied prefix.entry) expression)) }
    ensures of_bytes { IfErr result IsOfBytes }
{
    let Ok(snap) = ready_to_find(alloc, snap, who, &expression) else {
        drop(expression);
        return Err(Halt::Memory);
    };
    let reply = find_text(walkers, alloc, snap, who, start, prefix, &expression);
    drop(expression);
    written(alloc, reply)
}

// The same of what these rows take up, in lines of directories. One thread sums them.
#[tactic(auto, using(crate::proofs::ReplyLemmas::asking))]
fn summed(
    alloc: Global,
    snap: Snapshot,
    who: &Principal,
    start: &Path,
    depth: u32,
    expression: FindExpr,
) -> Result<Output, Halt>
    ensures text { Gives text_view result (asked snap.tree who.now start.now (usage_ask depth expression)) }
    ensures of_bytes { IfErr result IsOfBytes }
{
    let Ok(snap) = ready_to_find(alloc, snap, who, &expression) else {
        drop(expression);
        return Err(Halt::Memory);
    };
    let reply = usages_text(alloc, &snap, who, start, depth, &expression);
    drop(expression);
    written_over(alloc, snap, reply)
}

// The same of the columns of the rows that a SELECT chooses.
#[tactic(auto, using(crate::proofs::ReplyLemmas::asking))]
fn selected<R: Threads + Wait + Sync, G: Gate + Sync>(
    walkers: &Walkers<'_, R, G>,
    alloc: Global,
    snap: Snapshot,
    who: &Principal,
    start: &Path,
    form: Form,
    select: Select,
) -> Result<Output, Halt>
    ensures text { Gives text_view result (asked snap.tree who.now start.now (query_ask form select)) }
    ensures of_bytes { IfErr result IsOfBytes }
{
    let Ok(snap) = ready_to_select(alloc, snap, who, &select) else {
        drop(select);
        return Err(Halt::Memory);
    };
    let reply = query_text(walkers, alloc, snap, who, start, form, &select);
    drop(select);
    written(alloc, reply)
}

// The same of the groups of an agg.
#[tactic(auto, using(crate::proofs::ReplyLemmas::asking))]
fn grouped<R: Threads + Wait + Sync, G: Gate + Sync>(
    walkers: &Walkers<'_, R, G>,
    alloc: Global,
    snap: Snapshot,
    who: &Principal,
    start: &Path,
    names: Option<&Users>,
    agg: Agg,
) -> Result<Output, Halt>
    ensures text { Gives text_view result (asked snap.tree who.now start.now (agg_ask (option_copied names.entry) agg)) }
    ensures of_bytes { IfErr result IsOfBytes }
{
    let Ok(snap) = ready_to_select(alloc, snap, who, agg.select()) else {
        drop(agg);
        return Err(Halt::Memory);
    };
    let reply = groups_text(walkers, alloc, &snap, who, start, names, &agg);
    drop(agg);
    written_over(alloc, snap, reply)
}

impl Find<'_> {
    // What is written of a snapshot: the words are judged before the start.
    #[tactic(auto, using(crate::proofs::SearchLemmas::expressions))]
    fn answer<R: Threads + Wait + Sync, G: Gate + Sync>(
        &self,
        walkers: &Walkers<'_, R, G>,
        alloc: Global,
        users: &Users,
        snap: Snapshot,
        who: &Principal,
        start: &Path,
    ) -> Result<Output, Halt>
        ensures text { Gives text_view result (asked_if snap.tree who.now start.now (find_asking self.now.expression.before self.now.expression.moment (option_copied self.now.prefix) self.now.expression.words.now users.now)) }
        ensures of_bytes { IfErr result IsOfBytes }
    {
        match self.expression.read(alloc, users) {
            Ok(expression) => found(walkers, alloc, snap, who, start, self.prefix, expression),
            Err(halt) => {
                drop(snap);
                Err(halt)
            }
        }
    }
}

impl Usages<'_> {
    // The same of what the rows take up.
    #[tactic(auto, using(crate::proofs::SearchLemmas::usages))]
    fn answer(
        &self,
        alloc: Global,
        users: &Users,
        snap: Snapshot,
        who: &Principal,
        start: &Path,
    ) -> Result<Output, Halt>
        ensures text { Gives text_view result (asked_if snap.tree who.now start.now (usage_asking self.now.expression.before self.now.expression.moment self.now.depth self.now.expression.words.now users.now)) }
        ensures of_bytes { IfErr result IsOfBytes }
    {
        match self.expression.read(alloc, users) {
            Ok(expression) => summed(alloc, snap, who, start, self.depth, expression),
            Err(halt) => {
                drop(snap);
                Err(halt)
            }
        }
    }
}

impl Query<'_> {
    // The same of a SELECT.
    #[tactic(auto, using(crate::proofs::SearchLemmas::selects))]
    fn answer<R: Threads + Wait + Sync, G: Gate + Sync>(
        &self,
        walkers: &Walkers<'_, R, G>,
        alloc: Global,
        snap: Snapshot,
        who: &Principal,
        start: &Path,
    ) -> Result<Output, Halt>
        ensures text { Gives text_view result (asked_if snap.tree who.now start.now (query_asked self.now.user_at self.now.form self.now.text.now)) }
        ensures of_bytes { IfErr result IsOfBytes }
    {
        match self.select(alloc) {
            Ok(select) => selected(walkers, alloc, snap, who, start, self.form, select),
            Err(halt) => {
                drop(snap);
                Err(halt)
            }
        }
    }
}

impl Aggregate<'_> {
    // The same of an agg.
    #[tactic(auto, using(crate::proofs::SearchLemmas::aggs))]
    fn answer<R: Threads + Wait + Sync, G: Gate + Sync>(
        &self,
        walkers: &Walkers<'_, R, G>,
        alloc: Global,
        users: &Users,
        snap: Snapshot,
        who: &Principal,
        start: &Path,
    ) -> Result<Output, Halt>
        ensures text { Gives text_view result (asked_if snap.tree who.now start.now (agg_asking self.now.user_at self.now.names self.now.text.now users.now)) }
        ensures of_bytes { IfErr result IsOfBytes }
    {
        match self.agg(alloc) {
            Ok(agg) => {
                let names = named_by(self.names, users);
                grouped(walkers, alloc, snap, who, start, names, agg)
            }
            Err(halt) => {
                drop(snap);
                Err(halt)
            }
        }
    }
}

/// What a command asks of an index for a principal from a start on.
#[derive(Clone, Copy)]
pub(crate) enum Question<'a> {
    /// The start's record, and the sum of the rows that the user lists from it.
    Stat,
    Find(Find<'a>),
    Usages(Usages<'a>),
    /// The rows one level below the start.
    Ls { long: bool, all: bool },
    /// A report over all rows that the user lists from the start.
    Stats { names: bool, report: Report },
    Query(Query<'a>),
    Agg(Aggregate<'a>),
}

impl<'a> Question<'a> {
    pub(crate) fn find(
        common: &Common,
        moment: Option<i64>,
        prefix: &'a Option<Text>,
        words: &'a Items<Text>,
    ) -> Question<'a>
        ensures { asks result ≡ find_asking common.now.user_at moment prefix.now words.now }
    {
        let expression = Expression {
            before: common.user_at as usize,
            moment,
            words: words.as_slice(),
        };
        Question::Find(Find {
            expression,
            prefix: prefix.as_ref(),
        })
    }

    /// DEPTH stands before its expression.
    pub(crate) fn usages(
        common: &Common,
        moment: Option<i64>,
        depth: u32,
        words: &'a Items<Text>,
    ) -> Question<'a>
        ensures { asks result ≡ usage_asking (common.now.user_at + 1) moment depth words.now }
    {
        let expression = Expression {
            before: common.user_at as usize + 1,
            moment,
            words: words.as_slice(),
        };
        Question::Usages(Usages { expression, depth })
    }

    pub(crate) fn query(
        common: &Common,
        escape: bool,
        header: bool,
        json: bool,
        text: &'a Text,
    ) -> Question<'a>
        ensures { asks result ≡ query_asking common.now.user_at (form_of escape header json) text.now }
    {
        Question::Query(Query {
            user_at: common.user_at,
            form: form_of(escape, header, json),
            text: text.as_str().as_bytes(),
        })
    }

    pub(crate) fn agg(common: &Common, names: bool, text: &'a Text) -> Question<'a>
        ensures { asks result ≡ agg_asking common.now.user_at names text.now }
    {
        Question::Agg(Aggregate {
            user_at: common.user_at,
            names,
            text: text.as_str().as_bytes(),
        })
    }

    pub(crate) fn stats(names: bool, word: ReportWord) -> Question<'a>
        ensures { asks result ≡ stats_asking names (report_of word) }
    {
        let report = report_of(word);
        Question::Stats { names, report }
    }

    /// What it writes of a snapshot. The query words are judged before the start; sums are made where the question asks for them.
    #[tactic(auto, using(crate::proofs::ReplyLemmas::asking))]
    pub(crate) fn answer<R: Threads + Wait + Sync, G: Gate + Sync>(
        &self,
        walkers: &Walkers<'_, R, G>,
        alloc: Global,
        users: &Users,
        snap: Snapshot,
        who: &Principal,
        start: &Path,
    ) -> Result<Output, Halt>
        ensures text { Gives text_view result (asked_if snap.tree who.now start.now (asks self.now users.now)) }
        ensures of_bytes { IfErr result IsOfBytes }
    {
        match self {
            Question::Find(find) => find.answer(walkers, alloc, users, snap, who, start),
            Question::Usages(usages) => usages.answer(alloc, users, snap, who, start),
            Question::Query(query) => query.answer(walkers, alloc, snap, who, start),
            Question::Agg(aggregate) => aggregate.answer(walkers, alloc, users, snap, who, start),
            Question::Stat => {
                let reply = record_text(alloc, &snap, who, start);
                written_over(alloc, snap, reply)
            }
            Question::Ls { long, all } => {
                let reply = listing_text(walkers, alloc, &snap, who, start, users, *long, *all);
                written_over(alloc, snap, reply)
            }
            Question::Stats { names, report } => {
                let names = named_by(*names, users);
                let reply = report_text(walkers, alloc, &snap, who, start, names, *report);
                written_over(alloc, snap, reply)
            }
        }
    }
}
