// 13 without a walk for each number: a table in use nearly always has each packet at its own place, and shows it quickly.
ghost use Rattle.std.specs.Prelude.{◌≡◌, true, false, not, ◌≤◌, length};
ghost use Rattle.received.specs.Record.{slot_count, slots_of, KnownLapped};
ghost use Rattle.keys.specs.Keys.{twice};
ghost use Rattle.terms.specs.Sizes.{in_range};
ghost use Rattle.flight_home.specs.AtHome.{AtHome};
ghost use Rattle.flight.specs.Places.{sound as flight_sound};
ghost use Rattle.acks.specs.Gate.{sound};
ghost use Rattle.acks.specs.State.{table_of, slot_of};

use serial::PacketNumber;
use terms::Sizes;

// The packets in flight are at home. A `false` says nothing. Requires sizes in range, and columns as long as stated.
pub fn is_home(sizes: Sizes, next: PacketNumber, number: &[u32]) -> bool
    requires { (in_range sizes ≡ true) × (sizes.packets_in_flight ≤ length number.now) }
    ensures { result ≡ true → AtHome (slot_of sizes) (table_of sizes number.now) }
{
    flight_home::home::is_home(
        &number[..sizes.packets_in_flight],
        16 * sizes.fragment_size,
        next,
    )
}

// The slots of the received record stand in laps, as `key_parts::laps` sees it. A `false` says nothing. Requires the record's slots.
pub fn is_lapped(received: &[u32]) -> bool
    requires { slot_count ≤ length received.now }
    ensures known_lapped { KnownLapped result received.now }
    ensures received_value { result ≡ true → twice (slots_of received.now) ≡ false }
{
    key_parts::laps::is_lapped(&received[..received::SLOTS])
}

// Not 13, knowing whether the packets in flight are at home. Requires sizes in range, and what is lent to be as long as stated.
pub fn is_sound(sizes: Sizes, received: &[u32], number: &[u32], at_home: bool) -> bool
    requires { (in_range sizes ≡ true) × (slot_count ≤ length received.now) × (sizes.packets_in_flight ≤ length number.now) × (at_home ≡ true → AtHome (slot_of sizes) (table_of sizes number.now)) }
    ensures { result ≡ sound sizes received.now number.now }
{
    let lapped = is_lapped(received);
    if !is_record_sound(received, lapped) {
        return false;
    }
    is_flight_sound(sizes, number, at_home)
}

// No received number stands twice. Where the slots were seen to stand in laps, that is known. Requires the record's slots.
pub fn is_record_sound(received: &[u32], lapped: bool) -> bool
    requires { (slot_count ≤ length received.now) × (lapped ≡ true → twice (slots_of received.now) ≡ false) }
    ensures { result ≡ not (twice (slots_of received.now)) }
{
    if lapped {
        return true;
    }
    !keys::has_twice(&received[..received::SLOTS])
}

// Not 13 of the packets in flight, which holds at home. Requires sizes in range, and columns as long as stated.
pub fn is_flight_sound(sizes: Sizes, number: &[u32], at_home: bool) -> bool
    requires { (in_range sizes ≡ true) × (sizes.packets_in_flight ≤ length number.now) × (at_home ≡ true → AtHome (slot_of sizes) (table_of sizes number.now)) }
    ensures { result ≡ flight_sound (slot_of sizes) (table_of sizes number.now) }
{
    if at_home {
        return true;
    }
    flight::places::is_sound(&number[..sizes.packets_in_flight], 16 * sizes.fragment_size)
}
