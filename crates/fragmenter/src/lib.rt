// What holds of fragments over many calls. It has no code of its own: `splitter` has the pieces of a payload, `reassembly`
// puts them together, and here stand the theorems over both.
#![tactic(auto)]

ghost use Rattle.fragmenter.specs.Present.{GivesBack};
ghost use Rattle.fragmenter.specs.Runs.{StaysSound};
ghost use Rattle.fragmenter.specs.Unpacked.{Unpacked};

// From a fresh table 13 never arises. It has no code: its contract is the theorem.
pub fn stays_sound()
    ensures { StaysSound }
{}

// A payload's fragments, presented in order, each once, to a fresh table give it back. The contract is the theorem.
pub fn gives_back()
    ensures { GivesBack }
{}

// What was packed into an entry's words is read from them again. The contract is the theorem.
pub fn packed_again()
    ensures { Unpacked }
{}
