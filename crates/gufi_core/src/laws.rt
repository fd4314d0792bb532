//! What holds in every state that a list of legal events reaches, whatever their order.

ghost use Rattle.gufi_core.specs.Interleavings.{RunsHold, StepsKeepBalance, EndedJobsTookOwed};

/// After every list of legal events each job is balanced and names a publication of its shape's tree; what a caller
/// has seen never falls, and never passes the number of publications.
pub fn runs_hold()
    ensures { RunsHold }
{}

/// Every legal step, from every state whose jobs are balanced, leads to a state whose jobs are.
pub fn steps_keep_balance()
    ensures { StepsKeepBalance }
{}

/// A balanced job over a sound shape whose workers have all ended took each owed task once, and nothing else.
pub fn ended_jobs_took_owed()
    ensures { EndedJobsTookOwed }
{}
