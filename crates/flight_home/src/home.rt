// Whether the packets in flight stand at their own places: a number's remainder by the number of places. A table in use
// nearly always shows it, since its numbers are among the last as there are places. It takes no division and few branches,
// and then a number is found without a walk.
ghost use Rattle.std.specs.Prelude.{◌≡◌, true, ◌⊎◌, ℕ, ◌+◌, ◌%◌, ◌≤◌, ◌<◌, length, get_or};
ghost use Rattle.key_parts.specs.Words.{no_packet, Word, Placed};
ghost use Rattle.serial.specs.Order.{back};
ghost use Rattle.flight.specs.Places.{sound};
ghost use Rattle.flight_home.specs.AtHome.{AtHome, PlaceHome};

use key_parts::parts::NO_PACKET;
use serial::PacketNumber;

// Each number is at home and no length is over its slot: not 13. A `false` says nothing. `next` is the number that is
// sent next: it makes the answer quick, not right. Requires sizes in range.
pub fn is_home(number: &[u32], room: usize, next: PacketNumber) -> bool
    requires { (1 ≤ length number.now) × (length number.now ≤ 256) × (room ≤ 16384) }
    ensures { result ≡ true → AtHome room number.now }
{
    let n = number.len();
    let here = next.0 % (n as u16);
    let lap = next.0 - here;
    let last = serial::distance(lap, n as u16);
    if !is_lap(lap, last, n) {
        return false;
    }
    are_parts_home(number, room as u32, here as usize, lap as u32, last as u32)
}

// The lap before one of n numbers is a multiple of n too, unless it lies before 65,535. Requires it.
fn is_lap(lap: u16, last: u16, n: usize) -> bool
    requires { (1 ≤ n) × (n ≤ 256) × (lap % n ≡ 0) × (last ≡ back lap n) }
    ensures { result ≡ true → last % n ≡ 0 }
{
    if n <= lap as usize {
        return true;
    }
    last as usize % n == 0
}

// Each number is its place added to one of two numbers, and no length is over its slot. `here` is the place of the number
// that is sent next.
fn are_parts_home(number: &[u32], room: u32, here: usize, lap: u32, last: u32) -> bool
    requires { (length number.now ≤ 256) × (room ≤ 16384) × (here ≤ length number.now) × (lap < 65536) × (last < 65536) }
    ensures { result ≡ true → (j : ℕ) → j < length number.now → PlaceHome room lap last number.now j }
{
    let newest = newest_part(number, here);
    let parts = number.len() / key_parts::wide::WIDE;
    for part in 0..parts {
        if !is_part_home(
            number,
            room,
            here,
            newest,
            part * key_parts::wide::WIDE,
            lap,
            last,
        ) {
            return false;
        }
    }
    let at = parts * key_parts::wide::WIDE;
    if at == number.len() {
        return true;
    }
    is_rest_home(number, room, after_free(number, at), lap, last)
}

// Of one part. Requires it.
fn is_part_home(
    number: &[u32],
    room: u32,
    here: usize,
    newest: usize,
    at: usize,
    lap: u32,
    last: u32,
) -> bool
    requires { (at + 64 ≤ length number.now) × (at < 256) × (room ≤ 16384) × (lap < 65536) × (last < 65536) }
    ensures { result ≡ true → (k : ℕ) → k < 64 → PlaceHome room lap last number.now (at + k) }
{
    if is_free(number, newest, at) {
        return true;
    }
    is_in_step(number, room, here, at, lap, last)
}

// The part has no packet. Where it has some, it is the newest number's or one mostly stands at its last place. Requires
// the part.
fn is_free(number: &[u32], newest: usize, at: usize) -> bool
    requires { at + 64 ≤ length number.now }
    ensures { result ≡ true → (k : ℕ) → k < 64 → no_packet ≤ get_or number.now (at + k) 0 }
{
    if at == newest {
        return false;
    }
    if number[at + 63] < NO_PACKET {
        return false;
    }
    keys::none_below(&number[at..at + key_parts::wide::WIDE], NO_PACKET)
}

// Where the part begins that has the newest number, if that is in flight. It makes the answer quick, not right.
fn newest_part(number: &[u32], here: usize) -> usize
    requires { here ≤ length number.now }
{
    if here == 0 {
        return number.len();
    }
    if number[here - 1] >= NO_PACKET {
        return number.len();
    }
    (here - 1) / key_parts::wide::WIDE * key_parts::wide::WIDE
}

// Each number of the part is its place added to one of two numbers, for nearly every part to the same, and no length is over
// its slot. Requires the part.
fn is_in_step(number: &[u32], room: u32, here: usize, at: usize, lap: u32, last: u32) -> bool
    requires { (at + 64 ≤ length number.now) × (at < 256) × (room ≤ 16384) × (lap < 65536) × (last < 65536) }
    ensures { result ≡ true → (k : ℕ) → k < 64 → PlaceHome room lap last number.now (at + k) }
{
    if follows(number, room, at, nearer(here, at, lap, last) + at as u32) {
        return true;
    }
    if !key_parts::parts::in_step(number, at, lap, last, room) {
        return false;
    }
    key_parts::parts::in_step(number, at + key_parts::parts::PART, lap, last, room)
}

// The part's numbers follow each other, and no length is over its slot. Requires the part.
fn follows(number: &[u32], room: u32, at: usize, first: u32) -> bool
    requires { (at + 64 ≤ length number.now) × (room ≤ 16384) }
    ensures { result ≡ true → (k : ℕ) → k < 64 → Word room (first + k) (first + k) (get_or number.now (at + k) 0) }
{
    if first % 64 != 0 {
        return false;
    }
    if 65536 <= first {
        return false;
    }
    key_parts::wide::follows(number, at, first, room)
}

// Before the place of the next number stand this lap's numbers, after it the last lap's.
fn nearer(here: usize, at: usize, lap: u32, last: u32) -> u32
    ensures { (result ≡ lap) ⊎ (result ≡ last) }
{
    if at < here {
        return lap;
    }
    last
}

// Where the places behind the last part are to be looked at from: after 32 of them, if those have no packet.
fn after_free(number: &[u32], at: usize) -> usize
    requires { at ≤ length number.now }
    ensures { (at ≤ result) × (result ≤ length number.now) × ((j : ℕ) → at ≤ j → j < result → no_packet ≤ get_or number.now j 0) }
{
    if number.len() - at < key_parts::parts::PART {
        return at;
    }
    let after = at + key_parts::parts::PART;
    if keys::none_below(&number[at..after], NO_PACKET) {
        return after;
    }
    at
}

// Of the places behind the last part, one by one.
fn is_rest_home(number: &[u32], room: u32, from: usize, lap: u32, last: u32) -> bool
    requires { (from ≤ length number.now) × (length number.now ≤ 256) × (lap < 65536) × (last < 65536) }
    ensures { result ≡ true → (j : ℕ) → from ≤ j → j < length number.now → PlaceHome room lap last number.now j }
{
    for i in from..number.len() {
        if number[i] < NO_PACKET && !is_entry_home(number[i], room, i as u32, lap, last) {
            return false;
        }
    }
    true
}

fn is_entry_home(word: u32, room: u32, place: u32, lap: u32, last: u32) -> bool
    requires { (place < 65536) × (lap < 65536) × (last < 65536) }
    ensures { result ≡ true → Placed room lap last place word }
{
    if room < word % 32768 {
        return false;
    }
    if word / 32768 == lap + place {
        return true;
    }
    word / 32768 == last + place
}

// Not 13, as `flight::places::is_sound` tells it, quickly where the table is at home. Requires at most 256 places.
#[tactic(auto, using(crate::proofs::Homes::home_sound))]
pub fn is_sound(number: &[u32], room: usize) -> bool
    requires { length number.now ≤ 256 }
    ensures { result ≡ sound room number.now }
{
    if is_seen_home(number, room) {
        return true;
    }
    flight::places::is_sound(number, room)
}

// The first number that is in flight says which are the last ones.
fn is_seen_home(number: &[u32], room: usize) -> bool
    requires { length number.now ≤ 256 }
    ensures { result ≡ true → AtHome room number.now }
{
    if number.len() < 1 {
        return false;
    }
    if 16384 < room {
        return false;
    }
    is_home(number, room, PacketNumber(first_number(number)))
}

// Where no packet is in flight, any number will do.
fn first_number(number: &[u32]) -> u16 {
    for part in number.chunks(key_parts::parts::PART) {
        if !keys::none_below(part, NO_PACKET) {
            return first_of(part);
        }
    }
    0
}

fn first_of(part: &[u32]) -> u16 {
    for word in part {
        if *word < NO_PACKET {
            return (*word / 32768) as u16;
        }
    }
    0
}
