// What `agreement` speaks of does happen: a run over whole ends in which the table of held items fills (6) and goes on, computed. No
// code: the contract is what it comes to.
#![tactic(auto)]

ghost use Rattle.agreement_filling.specs.Filling.{Fills};

pub fn filling_agrees()
    ensures { Fills }
{}
