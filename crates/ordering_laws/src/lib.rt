// What an ordered stream does over many calls. No code: each contract is a theorem, and its statement is under specs/.
// Read `in_order` first.
#![tactic(auto)]

ghost use Rattle.ordering_laws.specs.Held.{HeldIsAMap};
ghost use Rattle.ordering_laws.specs.Sound.{StaysSound};
ghost use Rattle.ordering_laws.specs.Full.{FullIsExact};
ghost use Rattle.ordering_laws.specs.Run.{InOrder};

// What is held is a map from an index to bytes: putting and taking change it at one index.
pub fn held_is_a_map()
    ensures { HeldIsAMap }
{}

// A stream that was fresh is never refused 13.
pub fn stays_sound()
    ensures { StaysSound }
{}

// 6 is given exactly where 64 other indices are held.
pub fn full_is_exact()
    ensures { FullIsExact }
{}

// One arrival, with takes until none comes, hands out the next items in order.
pub fn in_order()
    ensures { InOrder }
{}
