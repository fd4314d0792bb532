//! What one lane does: it pins once for each of its asks, and answers from what it pinned alone, or by what it kept of that.
ghost use Rattle.std.specs.Prelude.{◌≡◌, ◌+◌, ◌<◌, ◌≤◌, ◌^◌, ◌++◌, ℕ, [], Some, is_some, unwrap_or, length, IfOk, OnOk};
ghost use Rattle.gufi_cache.specs.Pairs.{text_of, moved_to_front};
ghost use Rattle.gufi_phases.specs.Phases.{asks_in};
ghost use Rattle.gufi_phases.specs.Keeping.{Keeping, behind_miss, behind_ask, kept_behind, kept_text};
ghost use Rattle.gufi_phases.specs.Lanes.{KeepAs, IsAnswered, IsKeptPlace, IsKeptRow, IsPlace, IsRow, IsServed};
ghost use Rattle.gufi_phases.specs.Replies.{BodiesBy};

use crate::act::{Act, Wanted};
use crate::answer::{Answer, Row, Served};
use crate::keeping::{Lane, MAX_KEPT};
use gufi_base::Memory;
use gufi_cache::{Cache, CacheKey};
use gufi_hub::{Meaning, Visitor};
use gufi_io::{Gate, GateKind};
use std::alloc::Global;

/// Makes the body of a reply behind its head, and keeps it where it is short enough.
fn make_body<T: Drop, Q: Wanted<T>, A: Fn(&Q, Vec<u8>, &T) -> Result<Vec<u8>, Memory>>(
    alloc: Global,
    reply: &A,
    cache: &mut Cache,
    key: CacheKey,
    question: &Q,
    head: Vec<u8>,
    item: &T,
) -> Result<Vec<u8>, Memory>
    requires replies { BodiesBy A.Fn Q.body reply.now }
    ensures text { IfOk result (λ text. text.items ≡ head.items ++ Q.body question.now item.now) }
    ensures kept { OnOk result (cache.new ≡ behind_miss key (Q.body question.now item.now) cache.old) }
{
    let before = head.len();
    let text = reply(question, head, item)?;
    let body = &text[before..];
    if body.len() <= MAX_KEPT {
        cache.keep(key, Vec::from_slice(alloc, body)?)?;
    }
    Ok(text)
}

/// Puts the text that is kept under a key behind a head, where there is one. Its pair is then the most recent.
fn put_kept(cache: &mut Cache, key: &CacheKey, head: &mut Vec<u8>) -> Result<bool, Memory>
    ensures found { IfOk result (λ found. found ≡ is_some (text_of key.now cache.old)) }
    ensures text { OnOk result (head.new.items ≡ head.old.items ++ unwrap_or (text_of key.now cache.old) []) }
    ensures moved { OnOk result (cache.new ≡ moved_to_front key.now cache.old) }
{
    match cache.find(key) {
        Some(text) => {
            head.extend_from_slice(text)?;
            Ok(true)
        }
        None => Ok(false),
    }
}

/// Answers by what the cache has, or makes the body and keeps it.
fn answer_with<T: Drop, Q: Wanted<T>, A: Fn(&Q, Vec<u8>, &T) -> Result<Vec<u8>, Memory>>(
    alloc: Global,
    reply: &A,
    cache: &mut Cache,
    question: &Q,
    ask: u32,
    number: u64,
    item: &T,
) -> Result<Answer, Memory>
    requires replies { BodiesBy A.Fn Q.body reply.now }
    ensures number { IfOk result (λ a. a.number ≡ number) }
    ensures text { IfOk result (λ a. a.text.items ≡ Q.head ask number ++ unwrap_or (text_of (Q.key question.now number) cache.old) (Q.body question.now item.now)) }
    ensures hit { IfOk result (λ a. a.hit ≡ is_some (text_of (Q.key question.now number) cache.old)) }
    ensures kept { OnOk result (cache.new ≡ behind_ask (Q.key question.now number) (Q.body question.now item.now) cache.old) }
{
    let key = question.kept_under(alloc, number)?;
    let mut text = question.put_head(alloc, ask, number)?;
    if put_kept(cache, &key, &mut text)? {
        return Ok(Answer {
            number,
            hit: true,
            text,
        });
    }
    let text = make_body(alloc, reply, cache, key, question, text, item)?;
    Ok(Answer {
        number,
        hit: false,
        text,
    })
}

/// Answers from an item, by what is kept where something is.
fn answer_from<T: Drop, Q: Wanted<T>, A: Fn(&Q, Vec<u8>, &T) -> Result<Vec<u8>, Memory>>(
    alloc: Global,
    reply: &A,
    kept: &mut Option<Cache>,
    question: &Q,
    ask: u32,
    number: u64,
    item: &T,
) -> Result<Answer, Memory>
    requires replies { BodiesBy A.Fn Q.body reply.now }
    ensures number { IfOk result (λ a. a.number ≡ number) }
    ensures text { IfOk result (λ a. a.text.items ≡ Q.head ask number ++ unwrap_or (kept_text Q.key Q.body question.now number (Some item.now) kept.old) (Q.body question.now item.now)) }
    ensures hit { IfOk result (λ a. a.hit ≡ is_some (kept_text Q.key Q.body question.now number (Some item.now) kept.old)) }
    ensures kept { OnOk result (kept.new ≡ kept_behind Q.key Q.body question.now number (Some item.now) kept.old) }
{
    match kept {
        Some(cache) => answer_with(alloc, reply, cache, question, ask, number, item),
        None => {
            let head = question.put_head(alloc, ask, number)?;
            Ok(Answer {
                number,
                hit: false,
                text: reply(question, head, item)?,
            })
        }
    }
}

/// Pins once, and answers an ask.
fn answer_ask<
    T: Drop,
    M: Meaning<T>,
    Q: Wanted<T>,
    A: Fn(&Q, Vec<u8>, &T) -> Result<Vec<u8>, Memory>,
    G: Gate,
>(
    alloc: Global,
    gate: &G,
    reply: &A,
    visitor: &mut Visitor<T, M>,
    kept: &mut Option<Cache>,
    question: &Q,
    ask: u32,
) -> Result<Answer, Memory>
    requires replies { BodiesBy A.Fn Q.body reply.now }
    ensures grows { visitor.old.number ≤ visitor.new.number }
    ensures number { IfOk result (λ a. (visitor.old.number ≤ a.number) × (a.number ≤ visitor.new.number)) }
    ensures answered { IfOk result (IsAnswered M.means Q.reply Q.head Q.key Q.body question.now ask kept.old kept.new) }
{
    gate.begin(GateKind::Ask, ask);
    match visitor.pin()? {
        None => Ok(Answer {
            number: 0,
            hit: false,
            text: question.reply_to_none(alloc, ask)?,
        }),
        Some(pinned) => {
            answer_from(
                alloc,
                reply,
                kept,
                question,
                ask,
                pinned.number,
                &pinned.item,
            )
        }
    }
}

/// The place of one act in a lane's row.
fn serve_act<
    T: Drop,
    M: Meaning<T>,
    C: Drop,
    Q: Wanted<T> + Drop,
    A: Fn(&Q, Vec<u8>, &T) -> Result<Vec<u8>, Memory>,
    G: Gate,
>(
    alloc: Global,
    gate: &G,
    reply: &A,
    visitor: &mut Visitor<T, M>,
    lane: &mut Lane,
    act: &Act<C, Q>,
    ask: u32,
) -> Result<Option<Answer>, Memory>
    requires replies { BodiesBy A.Fn Q.body reply.now }
    ensures number { lane.new.number ≡ lane.old.number }
    ensures grows { visitor.old.number ≤ visitor.new.number }
    ensures place { IfOk result (IsPlace visitor.old.number visitor.new.number act.now) }
    ensures kept { IfOk result (IsKeptPlace M.means Q.reply Q.head Q.key Q.body lane.old.number ask lane.old.kept lane.new.kept act.now) }
{
    match act {
        Act::Ask {
            lane: own,
            question,
        } if *own == lane.number => {
            let kept = &mut lane.kept;
            Ok(Some(answer_ask(alloc, gate, reply, visitor, kept, question, ask)?))
        }
        _ => Ok(None),
    }
}

pub(crate) fn asks_in<C: Drop, Q: Drop>(act: &Act<C, Q>) -> u32
    ensures count { result ≡ asks_in act.now }
    ensures few { result ≤ 1 }
{
    match act {
        Act::Publish { .. } => 0,
        Act::Ask { .. } => 1,
    }
}

/// A place for each act, in which the lane's asks are answered, of which `first` is the number of the phase's first ask.
fn serve_lane<
    T: Drop,
    M: Meaning<T>,
    C: Drop,
    Q: Wanted<T> + Drop,
    A: Fn(&Q, Vec<u8>, &T) -> Result<Vec<u8>, Memory>,
    G: Gate,
>(
    alloc: Global,
    gate: &G,
    reply: &A,
    visitor: &mut Visitor<T, M>,
    acts: &[Act<C, Q>],
    first: u32,
    lane: Lane,
) -> Result<Row, Memory>
    requires replies { BodiesBy A.Fn Q.body reply.now }
    requires room { first + length acts.now < 2 ^ 32 }
    ensures number { IfOk result (λ row. row.lane.number ≡ lane.number) }
    ensures grows { visitor.old.number ≤ visitor.new.number }
    ensures row { IfOk result (λ row. IsRow visitor.old.number visitor.new.number acts.now row.places.items) }
    ensures kept { IfOk result (λ row. IsKeptRow M.means Q.reply Q.head Q.key Q.body lane.number first lane.kept row.lane.kept acts.now row.places.items) }
{
    let mut lane = lane;
    let mut places = Vec::with_capacity(alloc, acts.len())?;
    let mut ask = first;
    for act in acts {
        let place = serve_act(alloc, gate, reply, visitor, &mut lane, act, ask)?;
        places.push(place)?;
        ask = ask + asks_in(act);
    }
    Ok(Row { lane, places })
}

/// What a visitor answers for lanes, one after the other.
pub(crate) fn serve<
    T: Drop,
    M: Meaning<T>,
    C: Drop,
    Q: Wanted<T> + Drop,
    A: Fn(&Q, Vec<u8>, &T) -> Result<Vec<u8>, Memory>,
    G: Gate,
>(
    alloc: Global,
    gate: &G,
    reply: &A,
    visitor: Visitor<T, M>,
    acts: &[Act<C, Q>],
    first: u32,
    lanes: Vec<Lane>,
) -> Result<Served, Memory>
    requires replies { BodiesBy A.Fn Q.body reply.now }
    requires room { first + length acts.now < 2 ^ 32 }
    ensures { (before : ℕ → Keeping) → KeepAs before lanes.items
        → IfOk result (IsServed M.means Q.reply Q.head Q.key Q.body before first visitor.number acts.now) }
{
    let mut visitor = visitor;
    let mut rows = Vec::with_capacity(alloc, lanes.len())?;
    for lane in lanes {
        let row = serve_lane(alloc, gate, reply, &mut visitor, acts, first, lane)?;
        rows.push(row)?;
    }
    Ok(Served {
        seen: visitor.seen(),
        rows,
    })
}
