//! The act that a line of a script is, its user and its query read.
//!
//! A query is let go by a call: what is let go at an early exit is proved there anew.
ghost use Rattle.std.specs.Prelude.{◌≡◌, ◌∷◌, ◌++◌, IfOk, OnOk};
ghost use Rattle.std.specs.List.{flat_map};
ghost use Rattle.gufi_base.specs.Basics.{GivesUnless, result_map_err};
ghost use Rattle.gufi_plan.specs.Plan.{query_text, query_of, search_of, planned_act};
ghost use Rattle.gufi_plan.specs.Settings.{setting_of};
ghost use Rattle.gufi_plan.specs.Asks.{AreShort, HasShortWords};

use crate::act::PlannedAct;
use crate::ask::ask_of;
use crate::fault::ActFault;
use crate::principals::Principals;
use crate::search::{Query, Search, SharedSearch};
use gufi_base::{Bytes, Path};
use gufi_find::read_find;
use gufi_script::{Act, Form, ScriptKind};
use gufi_select::read_select;
use gufi_users::Users;
use std::alloc::{AllocError, Global};
use std::sync::Arc;

/// What a session has beside its script.
#[derive(Drop)]
pub struct Setup<'a> {
    pub users: &'a Users,
    /// In seconds.
    pub now: Option<i64>,
    /// The byte between the fields of a trace.
    pub delim: u8,
}

fn put_others(text: &mut Vec<u8>, words: &[Bytes]) -> Result<(), AllocError>
    ensures { OnOk result (text.new.items ≡ text.old.items ++ flat_map (λ word. 32 ∷ word) words.now) }
{
    'words: for word in words {
        text.push(b' ')?;
        text.extend_from_slice(word.as_slice())?;
    }
    Ok(())
}

/// The words, with a space between two.
fn query_text(alloc: Global, words: &[Bytes]) -> Result<Vec<u8>, AllocError>
    ensures { IfOk result (λ text. text.items ≡ query_text words.now) }
{
    let [first, others @ ..] = words else {
        return Ok(Vec::new(alloc));
    };
    let mut text = Vec::from_slice(alloc, first.as_slice())?;
    put_others(&mut text, others)?;
    Ok(text)
}

#[tactic(auto, unfolding(crate::specs::Plan::query_of))]
fn query_of(
    alloc: Global,
    setup: &Setup<'_>,
    form: Form,
    words: &[Bytes],
) -> Result<Query, ActFault>
    ensures { GivesUnless ActFault.Memory result (result_map_err ActFault.Kind (query_of (setting_of setup.entry.now) form words.now)) }
{
    match form {
        Form::Find => {
            let find = read_find(alloc, words, setup.users, setup.now)?;
            Ok(Query::Finds { find })
        }
        Form::Total => {
            let find = read_find(alloc, words, setup.users, setup.now)?;
            Ok(Query::Totals { find })
        }
        Form::Query => {
            let text = query_text(alloc, words)?;
            let select = read_select(alloc, &text)?;
            Ok(Query::Selects { select })
        }
    }
}

// The user before the query. Words too long for the bytes of an ask are want of memory.
#[tactic(auto, unfolding(crate::specs::Plan::search_of))]
fn search_of(
    alloc: Global,
    setup: &Setup<'_>,
    principals: &mut Principals<'_>,
    user: &[u8],
    start: Path,
    form: Form,
    words: &[Bytes],
) -> Result<SharedSearch, ActFault>
    requires { principals.old ≡ setup.now.users.now }
    ensures search { GivesUnless ActFault.Memory result (result_map_err ActFault.Kind (search_of (setting_of setup.entry.now) user.now start form words.now)) }
    ensures short { OnOk result (AreShort words.now) }
    ensures users { principals.new ≡ principals.old }
{
    let Some(who) = principals.principal(alloc, user)? else {
        return Err(ActFault::Kind(ScriptKind::User));
    };
    let query = query_of(alloc, setup, form, words)?;
    let Ok(ask) = ask_of(alloc, form, words) else {
        drop(query);
        return Err(ActFault::Memory);
    };
    let search = Search {
        who,
        start,
        query,
        ask,
    };
    Ok(SharedSearch::of(Arc::new(alloc, search)?))
}

/// What is carried out for an act, and nothing for a barrier.
#[tactic(auto, unfolding(crate::specs::Plan::planned_act))]
pub(crate) fn planned_act(
    alloc: Global,
    setup: &Setup<'_>,
    principals: &mut Principals<'_>,
    act: Act,
) -> Result<Option<PlannedAct>, ActFault>
    requires { principals.old ≡ setup.now.users.now }
    ensures planned { GivesUnless ActFault.Memory result (result_map_err ActFault.Kind (planned_act (setting_of setup.entry.now) act)) }
    ensures short { OnOk result (HasShortWords act) }
    ensures users { principals.new ≡ principals.old }
{
    match act {
        Act::Publish { limit, file } => Ok(Some(PlannedAct::Publish {
            delim: setup.delim,
            limit,
            file,
        })),
        Act::Rollup { limit } => Ok(Some(PlannedAct::Rollup { limit })),
        Act::Refresh { path, file } => Ok(Some(PlannedAct::Refresh {
            delim: setup.delim,
            path,
            file,
        })),
        Act::Ask {
            lane,
            user,
            path,
            form,
            words,
        } => {
            let (user, words) = (user.as_slice(), words.as_slice());
            let search = search_of(alloc, setup, principals, user, path, form, words)?;
            Ok(Some(PlannedAct::Ask { lane, search }))
        }
        Act::Barrier => Ok(None),
    }
}
