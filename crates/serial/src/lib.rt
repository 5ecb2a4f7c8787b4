// Sixteen-bit numbers that come round: which of two is the greater, the next one, and how far one is from another.
// Read `sequence_greater_than` first. It leaves out which numbers a link has seen: that is `sequence_buffer`.
#![tactic(auto)]

ghost use Rattle.std.specs.Prelude.{◌≡◌};
ghost use Rattle.serial.specs.Order.{greater, next, back};
ghost use Rattle.serial.specs.Agreement.{AgreesWithRfc1982};

// The number of a packet.
#[derive(Clone, Copy, PartialEq, Eq, Debug)]
pub struct PacketNumber(pub u16);

// The number of an item among those of its stream. It never stands for a packet's.
#[derive(Clone, Copy, PartialEq, Eq, Debug)]
pub struct ItemId(pub u16);

// The same method for each of the two: a trait for one line would have to be imported by every caller.
impl PacketNumber {
    pub fn successor(self) -> PacketNumber
        ensures { result.0 ≡ next self.0 }
    {
        PacketNumber(successor(self.0))
    }
}

impl ItemId {
    pub fn successor(self) -> ItemId
        ensures { result.0 ≡ next self.0 }
    {
        ItemId(successor(self.0))
    }
}

// a comes after b.
#[tactic(auto, unfolding(crate::specs::Order::greater))]
pub fn sequence_greater_than(a: u16, b: u16) -> bool
    ensures { result ≡ greater a b }
{
    ((a > b) && (a - b <= 32768)) || ((a < b) && (b - a > 32768))
}

// a comes before b.
pub fn sequence_less_than(a: u16, b: u16) -> bool
    ensures { result ≡ greater b a }
{
    sequence_greater_than(b, a)
}

// The number after a.
pub fn successor(a: u16) -> u16
    ensures { result ≡ next a }
{
    a.wrapping_add(1)
}

// a - b, with wrap-around: how far a is from b, and the number that is b before a.
pub fn distance(a: u16, b: u16) -> u16
    ensures { result ≡ back a b }
{
    a.wrapping_sub(b)
}

// The order is RFC 1982's wherever that defines one. It has no code: its contract is the theorem.
#[tactic(auto, using(crate::proofs::Agrees::agreement))]
pub fn rfc1982()
    ensures { AgreesWithRfc1982 }
{}
