// Whether 33 entries stand as in a record of received packets, whichever of them are missing: as far from each other as
// their places, but for multiples of 33.
ghost use Rattle.std.specs.Prelude.{◌≡◌, ◌%◌, ◌<◌, true, false, length};
ghost use Rattle.keys.specs.Keys.{twice};
ghost use Rattle.key_parts.specs.Laps.{InLap, Lapped};

// Each entry is seen against the first one, from 15 laps of 33 before it to 16 after it. Then no key stands twice. A `false`
// says nothing. Requires 33 entries.
pub fn is_lapped(keys: &[u32]) -> bool
    requires { length keys.now ≡ 33 }
    ensures keys_value { result ≡ true → twice keys.now ≡ false }
    ensures lapped { result ≡ true → Lapped keys.now }
{
    let shift = 495u32.wrapping_sub(keys[0]);
    let mut odd = 0;
    for k in 1..33 {
        odd |= oddity(keys[k].wrapping_add(shift), k as u32);
    }
    odd % 32 == 0 && odd < 1024
}

// A multiple of 32 below 1,024 where an entry is its place and less than 32 laps: 33 x n is n x 32 and n.
fn oddity(entry: u32, place: u32) -> u32
    ensures { result % 32 ≡ 0 → result < 1024 → InLap place entry }
{
    let laps = entry.wrapping_sub(place);
    laps ^ (laps >> 5)
}
