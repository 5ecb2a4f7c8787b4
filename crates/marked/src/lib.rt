// Document 01's marked cases: one list, and one statement over it. No code: the contract is the theorem.
// Each case says what the definitions that contracts cite must answer; antt computes every one.
#![tactic(auto)]

ghost use Rattle.std.specs.Prelude.{◌≡◌, true};
ghost use Rattle.marked.specs.Cases.{cases, hold};

pub fn marked_cases()
    ensures { hold cases ≡ true }
{}
