// What looks at a number's own place instead of at every place, where the table is at home (`home::is_home`). What each
// answers is what the function answers that walks.
ghost use Rattle.std.specs.Prelude.{◌≡◌, true, ◌||◌, map, ◌-◌, ◌≤◌, eqb, length};
ghost use Rattle.laws.specs.Bits.{bit};
ghost use Rattle.keys.specs.Home.{Home};
ghost use Rattle.keys.specs.Keys.{first_place, found};
ghost use Rattle.sequence_buffer.specs.Buffer.{emptied};
ghost use Rattle.flight.specs.Entry.{number_in, numbers_in};
ghost use Rattle.flight.specs.Acked.{is_told};
ghost use Rattle.flight.specs.Places.{place_of};
ghost use Rattle.flight_home.specs.AtHome.{KnownHome};

use serial::PacketNumber;

// `flight::places::place`. Requires a place.
pub fn place(number: &[u32], packet: PacketNumber, home: bool) -> Option<usize>
    requires { (1 ≤ length number.now) × (home ≡ true → Home (numbers_in number.now)) }
    ensures { result ≡ found (place_of packet.0 (numbers_in number.now)) (length number.now) }
{
    if home {
        return place_at_home(number, packet);
    }
    flight::places::place(number, packet)
}

// A number that is there stands at its own place, so one whose own place is free goes there.
fn place_at_home(number: &[u32], packet: PacketNumber) -> Option<usize>
    requires { (1 ≤ length number.now) × Home (numbers_in number.now) }
    ensures { result ≡ found (place_of packet.0 (numbers_in number.now)) (length number.now) }
{
    let own = (packet.0 as usize) % number.len();
    let word = number[own];
    if word / 32768 == packet.0 as u32 {
        return Some(own);
    }
    if word >= key_parts::parts::NO_PACKET {
        return Some(own);
    }
    flight::places::place(number, packet)
}

// `flight::places::find`.
pub fn find(number: &[u32], packet: PacketNumber, home: bool) -> Option<usize>
    requires { KnownHome home number.now }
    ensures { result ≡ found (first_place packet.0 (numbers_in number.now)) (length number.now) }
{
    if home {
        return find_at_home(number, packet);
    }
    flight::places::find(number, packet)
}

// A number is at its own place, or nowhere.
fn find_at_home(number: &[u32], packet: PacketNumber) -> Option<usize>
    requires { (1 ≤ length number.now) × Home (numbers_in number.now) }
    ensures { result ≡ found (first_place packet.0 (numbers_in number.now)) (length number.now) }
{
    let own = (packet.0 as usize) % number.len();
    if number[own] / 32768 == packet.0 as u32 {
        return Some(own);
    }
    None
}

// `flight::acked::remove`.
pub fn remove(number: &mut [u32], acked: PacketNumber, field: u32, home: bool)
    requires { KnownHome home number.old }
    ensures { number.new ≡ map (emptied (is_told acked.0 field)) number.old }
{
    if home {
        remove_at_home(number, acked, field);
    } else {
        flight::acked::remove(number, acked, field);
    }
}

// The acknowledged number goes, and each number before it whose bit is set.
fn remove_at_home(number: &mut [u32], acked: PacketNumber, field: u32)
    requires { (1 ≤ length number.old) × Home (numbers_in number.old) }
    ensures { number.new ≡ map (emptied (is_told acked.0 field)) number.old }
{
    for i in 0..33 {
        if is_told(field, i) {
            remove_own(number, PacketNumber(serial::distance(acked.0, i)));
        }
    }
}

// An acknowledgment tells of the number that is so many before the one it names.
fn is_told(field: u32, before: u16) -> bool
    requires { before ≤ 32 }
    ensures { result ≡ (eqb before 0 || bit field (before - 1)) }
{
    if before == 0 {
        return true;
    }
    (field >> (before - 1)) % 2 == 1
}

// Takes a number from its own place, if it is there.
fn remove_own(number: &mut [u32], packet: PacketNumber)
    requires { (1 ≤ length number.old) × Home (numbers_in number.old) }
    ensures { number.new ≡ map (emptied (λ w. eqb packet.0 (number_in w))) number.old }
{
    let own = (packet.0 as usize) % number.len();
    if number[own] / 32768 == packet.0 as u32 {
        number[own] = sequence_buffer::NONE;
    }
}
