//! From a script to its plan.
ghost use Rattle.std.specs.Prelude.{◌≡◌, ◌+◌, ◌≤◌, [], ◌∷◌, length, IsTrue, IfOk, OnOk};
ghost use Rattle.gufi_base.specs.Limits.{max_script_lines};
ghost use Rattle.gufi_base.specs.Basics.{GivesUnless};
ghost use Rattle.gufi_script.specs.ScriptText.{is_script};
ghost use Rattle.gufi_plan.specs.Plan.{Plan, act_count, with_act, plan};
ghost use Rattle.gufi_plan.specs.Settings.{setting_of};
ghost use Rattle.gufi_plan.specs.Phases.{behind};
ghost use Rattle.gufi_plan.specs.Asks.{AsksTell};
ghost use Rattle.gufi_plan.specs.Bounds.{IsBounded};

use crate::act::{PlannedAct, SessionPlan};
use crate::fault::error_at;
use crate::principals::Principals;
use crate::reading::{Setup, planned_act};
use gufi_base::Items;
use gufi_script::{Script, ScriptError};
use std::alloc::{AllocError, Global};
use std::mem;

// The phases that are done, and the acts of the one that goes on.
#[derive(Drop)]
struct Phases {
    done: Vec<Items<PlannedAct>>,
    current: Vec<PlannedAct>,
}

impl Phases {
    /// Adds an act to the phase that goes on; none begins a new phase.
    fn add(&mut self, alloc: Global, planned: Option<PlannedAct>) -> Result<(), AllocError>
        ensures phases { OnOk result ((later : Plan) → behind self.new.done.items self.new.current.items later ≡ behind self.old.done.items self.old.current.items (with_act planned later)) }
        ensures few { OnOk result (act_count self.new.done.items + length self.new.current.items ≤ act_count self.old.done.items + length self.old.current.items + 1) }
    {
        match planned {
            Some(act) => self.current.push(act)?,
            None => {
                let acts = mem::replace(&mut self.current, Vec::new(alloc));
                self.done.push(Items::of(acts))?;
            }
        }
        Ok(())
    }

    /// The plan, whose last phase is the one that goes on.
    fn ended(self) -> Result<SessionPlan, AllocError>
        requires few { act_count self.done.items + length self.current.items ≤ max_script_lines }
        requires told { AsksTell (behind self.done.items self.current.items ([] ∷ [])) }
        requires bounded { IsBounded (behind self.done.items self.current.items ([] ∷ [])) }
        ensures { IfOk result (λ phases. phases ≡ behind self.done.items self.current.items ([] ∷ [])) }
    {
        let mut phases = self.done;
        phases.push(Items::of(self.current))?;
        Ok(SessionPlan::of(phases))
    }
}

/// The phases of a script.
fn plan_acts(
    alloc: Global,
    script: Script,
    setup: &Setup<'_>,
    principals: &mut Principals<'_>,
) -> Result<SessionPlan, ScriptError>
    requires script { IsTrue (is_script script) }
    requires users { principals.old ≡ setup.now.users.now }
    ensures { GivesUnless ScriptError.Memory result (plan (setting_of setup.entry.now) script) }
{
    let mut phases = Phases {
        done: Vec::new(alloc),
        current: Vec::new(alloc),
    };
    'acts: for (line, act) in script.acts.into_vec() {
        match planned_act(alloc, setup, principals, act) {
            Ok(planned) => phases.add(alloc, planned)?,
            Err(fault) => return Err(error_at(line, fault)),
        }
    }
    Ok(phases.ended()?)
}

/// The phases of a script, with a principal for each USER word and a query for the words of each ask.
///
/// Users and queries are judged in line order, the user of a line before its query. A damaged query is one kind of fault,
/// `Query`, whatever is wrong with it. Asks with equal USER words share one principal, and the group file is looked through once for
/// all of them.
pub fn plan_session(
    alloc: Global,
    script: Script,
    setup: &Setup<'_>,
) -> Result<SessionPlan, ScriptError>
    requires { IsTrue (is_script script) }
    ensures { GivesUnless ScriptError.Memory result (plan (setting_of setup.entry.now) script) }
{
    let Ok(mut principals) = Principals::of(alloc, setup.users, script.acts.as_slice()) else {
        drop(script);
        return Err(ScriptError::Memory);
    };
    plan_acts(alloc, script, setup, &mut principals)
}
