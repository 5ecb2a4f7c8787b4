// What the streams of a kind do over many calls. No code: each contract is a theorem, and its statement is under specs/.
#![tactic(auto)]

ghost use Rattle.arranging_laws.specs.Sound.{StaysSound};
ghost use Rattle.arranging_laws.specs.Others.{OthersUntouched};

// Streams of which there were none are never refused 13.
pub fn stays_sound()
    ensures { StaysSound }
{}

// A call on one stream leaves every other as it was.
pub fn others_untouched()
    ensures { OthersUntouched }
{}
