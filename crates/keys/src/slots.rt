// Whether 33 keys stand at their remainders, without a branch for each: the slots of a record of received packets, however
// many of them are empty, and after 65,535 too.
ghost use Rattle.std.specs.Prelude.{◌≡◌, true, false, ◌%◌, ◌≤◌, ◌<◌, length};
ghost use Rattle.keys.specs.Keys.{twice};

// How many there are.
pub const SLOTS: usize = 33;

// Each key stands at its remainder by 33, so none stands twice. A `false` says nothing. Requires 33 entries.
pub fn at_home(keys: &[u32]) -> bool
    requires { length keys.now ≡ 33 }
    ensures { result ≡ true → twice keys.now ≡ false }
{
    let mut all = u32::MAX;
    for (place, key) in keys.iter().enumerate() {
        all &= unless_home(*key, place as u32);
    }
    65536 <= all
}

// An entry, or no key where it stands at its remainder.
fn unless_home(entry: u32, place: u32) -> u32
    ensures { 65536 ≤ result → entry < 65536 → entry % 33 ≡ place }
{
    if entry % 33 == place { u32::MAX } else { entry }
}
