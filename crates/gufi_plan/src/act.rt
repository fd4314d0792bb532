//! What is carried out, phase by phase.
ghost use Rattle.std.specs.Prelude.{◌≡◌, ◌≤◌};
ghost use Rattle.gufi_base.specs.Limits.{max_script_lines};
ghost use Rattle.gufi_plan.specs.Plan.{act_count};
ghost use Rattle.gufi_plan.specs.Asks.{AsksTell};
ghost use Rattle.gufi_plan.specs.Bounds.{IsBounded};

use crate::search::SharedSearch;
use gufi_base::{Items, Path, Text};
use std::marker::Model;

/// One act of a phase.
#[derive(Drop)]
pub enum PlannedAct {
    /// Publishes the tree of a trace, whose fields the byte parts, rolled up under a limit on rows.
    Publish { delim: u8, limit: u64, file: Text },
    /// Publishes the last published tree under another limit.
    Rollup { limit: u64 },
    /// Publishes the last published tree, in which the subtree at a path is replaced by the tree of a trace.
    Refresh { delim: u8, path: Path, file: Text },
    /// Searches in a lane, from 1.
    Ask { lane: u32, search: SharedSearch },
}

/// The phases of a script. Together they have at most as many acts as a script may have lines, and at most 1,000 of these publish;
/// lanes are 1 to 16, and asks of the same form and words search for the same.
#[derive(Drop)]
pub struct SessionPlan {
    phases: Vec<Items<PlannedAct>>,
}

impl Model for SessionPlan {
    ghost use Rattle.std.specs.Prelude.{◌≤◌};
    ghost use Rattle.gufi_base.specs.Limits.{max_script_lines};
    ghost use Rattle.std.specs.Coded.{codes};
    ghost use Rattle.gufi_formula.specs.FormulaCodes.{formula_coded};
    ghost use Rattle.gufi_plan.specs.Plan.{Plan, act_count};
    ghost use Rattle.gufi_plan.specs.Asks.{AsksTell};
    ghost use Rattle.gufi_plan.specs.Bounds.{IsBounded};

    ghost Value = { Plan };

    ghost coded = { Prim.hlevel (codes, formula_coded) };

    ghost view = { λ p. p.phases.items };

    ghost invariant = { λ p. (act_count p.phases.items ≤ max_script_lines) × AsksTell p.phases.items × IsBounded p.phases.items };
}

impl SessionPlan {
    pub(crate) fn of(phases: Vec<Items<PlannedAct>>) -> SessionPlan
        requires few { act_count phases.items ≤ max_script_lines }
        requires told { AsksTell phases.items }
        requires bounded { IsBounded phases.items }
        ensures { result ≡ phases.items }
    {
        SessionPlan { phases }
    }

    /// The phases in their order.
    pub fn phases(&self) -> &[Items<PlannedAct>]
        ensures phases { result.now ≡ self.now }
        ensures few { act_count self.now ≤ max_script_lines }
        ensures told { AsksTell self.now }
        ensures bounded { IsBounded self.now }
    {
        self.phases.as_slice()
    }
}
