// Demand 3: two ends agree. No code: the contract is the theorem. Read specs/World.antt, specs/Events.antt, specs/Agreement.antt.
#![tactic(auto)]

ghost use Rattle.agreement.specs.Agreement.{TwoEndsAgree};

pub fn two_ends_agree()
    ensures { TwoEndsAgree }
{}
