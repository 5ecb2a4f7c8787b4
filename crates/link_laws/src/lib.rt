// What a whole end does over many calls. No code: each contract is a theorem, and its statement is under specs/.
#![tactic(auto)]

ghost use Rattle.link_laws.specs.Never.{NeverBroken};
ghost use Rattle.link_laws.specs.Refused.{RefusedLeaves};

// From a fresh end none of 1, 2 and 13 arises, whatever is called.
pub fn never_broken()
    ensures { NeverBroken }
{}

// A refused call leaves everything as it was, but for what a fragment's 8 and 12 do to the messages.
pub fn refused_leaves()
    ensures { RefusedLeaves }
{}
