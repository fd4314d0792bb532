//! Plans of scripts.
use gufi_plan::{PlannedAct, Query, Search, SessionPlan, Setup, plan_session};
use gufi_script::{ScriptError, read_script};
use gufi_users::{Users, read_group, read_passwd};
use std::alloc::Global;
use std::test::Fail;

fn users(alloc: Global) -> Result<Users, Fail> {
    let passwd = read_passwd(alloc, b"ana:x:1001:500:::\n")?;
    let groups = read_group(alloc, b"lab:x:501:ana\n")?;
    Ok(Users::of(alloc, passwd, groups)?)
}

fn plan_with(
    alloc: Global,
    users: &Users,
    text: &str,
) -> Result<Result<SessionPlan, ScriptError>, Fail> {
    let script = read_script(alloc, text.as_bytes())?;
    let setup = Setup {
        users,
        now: Some(200000),
        delim: b'|',
    };
    Ok(plan_session(alloc, script, &setup))
}

/// A session's plan, or why there is none.
fn plan_of(alloc: Global, text: &str) -> Result<Result<SessionPlan, ScriptError>, Fail> {
    let users = users(alloc)?;
    plan_with(alloc, &users, text)
}

fn form_of(search: &Search) -> &'static str {
    match &search.query {
        Query::Finds { .. } => "find",
        Query::Totals { .. } => "total",
        Query::Selects { .. } => "query",
    }
}

fn ask_line(alloc: Global, lane: u32, search: &Search) -> Result<String, Fail> {
    let uid = search.who.get().uid;
    let depth = search.start.depth();
    let form = form_of(search);
    Ok(format!(in alloc; "ask {lane} {uid} {depth} {form}\n")?)
}

/// An act as a line.
fn line_of(alloc: Global, act: &PlannedAct) -> Result<String, Fail> {
    match act {
        PlannedAct::Publish { delim, limit, file } => {
            let file = file.as_str();
            Ok(format!(in alloc; "publish {delim} {limit} {file}\n")?)
        }
        PlannedAct::Rollup { limit } => Ok(format!(in alloc; "rollup {limit}\n")?),
        PlannedAct::Refresh { delim, path, file } => {
            let depth = path.depth();
            let file = file.as_str();
            Ok(format!(in alloc; "refresh {delim} {depth} {file}\n")?)
        }
        PlannedAct::Ask { lane, search } => {
            let shared = search.share()?;
            ask_line(alloc, *lane, shared.get())
        }
    }
}

/// The acts of each phase, behind a line that tells of the phase.
fn lines_of(alloc: Global, plan: &SessionPlan) -> Result<String, Fail> {
    let mut text = String::new(alloc);
    for phase in plan.phases() {
        text.push_str("phase\n")?;
        for act in phase.as_slice() {
            text.push_str(line_of(alloc, act)?.as_str())?;
        }
    }
    Ok(text)
}

fn planned(alloc: Global, text: &str) -> Result<String, Fail> {
    let plan = plan_of(alloc, text)??;
    lines_of(alloc, &plan)
}

#[test]
fn acts_are_planned_by_their_phases(rt: HostRuntime) -> Result<(), Fail> {
    let script = "\
publish 10 a
ask 1 ana / find -name x
refresh /p/q b
barrier
# none
ask 2 102:5 /p total
rollup 5
ask 16 0 /p/q query SELECT name FROM rows WHERE name REGEXP 'x'
barrier
";
    let wanted = "\
phase
publish 124 10 a
ask 1 1001 0 find
refresh 124 2 b
phase
ask 2 102 1 total
rollup 5
ask 16 0 2 query
phase
";
    assert_eq!(rt; planned(rt.alloc(), script)?.as_str(), wanted);
    Ok(())
}

fn crosses<T: Send + Sync>(_value: &T) {}

fn searches_cross(plan: &SessionPlan) {
    for phase in plan.phases() {
        for act in phase.as_slice() {
            if let PlannedAct::Ask { search, .. } = act {
                crosses(search);
            }
        }
    }
}

#[test]
fn searches_cross_threads(rt: HostRuntime) -> Result<(), Fail> {
    let plan = plan_of(rt.alloc(), "ask 1 102 / query SELECT name FROM rows")??;
    searches_cross(&plan);
    Ok(())
}
