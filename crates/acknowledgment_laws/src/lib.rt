// What acknowledgments do over many calls. No code: the contract is a theorem, and its statement is under specs/.
#![tactic(auto)]

ghost use Rattle.acknowledgment_laws.specs.Runs.{NeverBroken};

// From a fresh end neither 2 nor 13 arises, whatever is called.
pub fn never_broken()
    ensures { NeverBroken }
{}
