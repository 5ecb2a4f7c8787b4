// The places of the table: how many have a packet, whether their entries are sound, and where a number is and goes.
ghost use Rattle.std.specs.Prelude.{◌≡◌, ◌≤◌, length};
ghost use Rattle.keys.specs.Keys.{found, first_place, twice};
ghost use Rattle.flight.specs.Entry.{numbers_in};
ghost use Rattle.flight.specs.Places.{count_of, over_long, sound, first_free, place_of};

use key_parts::parts::NO_PACKET;
use serial::PacketNumber;

// How many packets are in flight.
#[tactic(auto, using(crate::proofs::Walks::count_is))]
pub fn count(number: &[u32]) -> usize
    ensures { result ≡ count_of (numbers_in number.now) }
{
    number.iter().filter(|word| **word < NO_PACKET).count()
}

// Not 13. Requires at most 256 places.
#[tactic(auto, unfolding(crate::specs::Places::sound))]
pub fn is_sound(number: &[u32], room: usize) -> bool
    requires { length number.now ≤ 256 }
    ensures { result ≡ sound room number.now }
{
    !is_over_long(number, room) && !has_twice(number)
}

// A packet's recorded length is over its slot. With no way out early the compiler looks at several at once.
fn is_over_long(number: &[u32], room: usize) -> bool
    ensures { result ≡ over_long room number.now }
{
    number.iter().fold(
        false,
        |over, word| over | (*word < NO_PACKET && room < crate::entry::payload_length(*word)),
    )
}

// A number stands twice. Requires at most 256 places.
fn has_twice(number: &[u32]) -> bool
    requires { length number.now ≤ 256 }
    ensures { result ≡ twice (numbers_in number.now) }
{
    let mut keys = [0u32; 256];
    for (i, word) in number.iter().enumerate() {
        keys[i] = crate::entry::number(*word);
    }
    keys::has_twice(&keys[..number.len()])
}

// Where a number is, if it is there.
pub fn find(number: &[u32], packet: PacketNumber) -> Option<usize>
    ensures { result ≡ found (first_place packet.0 (numbers_in number.now)) (length number.now) }
{
    number
        .iter()
        .position(|word| crate::entry::number(*word) == packet.0 as u32)
}

// Where a number goes: where it is already; else its own place, its remainder by the number of places, if that is free;
// else the first free place, if there is one. Requires a place.
pub fn place(number: &[u32], packet: PacketNumber) -> Option<usize>
    requires { 1 ≤ length number.now }
    ensures { result ≡ found (place_of packet.0 (numbers_in number.now)) (length number.now) }
{
    if let Some(at) = find(number, packet) {
        return Some(at);
    }
    let own = (packet.0 as usize) % number.len();
    if number[own] < NO_PACKET {
        return first_free(number);
    }
    Some(own)
}

fn first_free(number: &[u32]) -> Option<usize>
    ensures { result ≡ found (first_free (numbers_in number.now)) (length number.now) }
{
    number.iter().position(|word| *word >= NO_PACKET)
}
