// What `agreement` speaks of does happen: a run over whole ends with loss, repeats, a drop and a resend, from fresh ends and across
// 65,535, computed. No code: the contract is what it comes to. A table that fills is the crate `agreement_filling`.
#![tactic(auto)]

ghost use Rattle.agreement_runs.specs.Runs.{Runs};

pub fn runs_agree()
    ensures { Runs }
{}
