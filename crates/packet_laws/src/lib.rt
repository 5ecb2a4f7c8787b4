// What holds of the reader and the builder of `packet` together. No code: each contract is a theorem, and its statement is under
// specs/.
#![tactic(auto)]

ghost use Rattle.packet_laws.specs.Inverse.{Inverse, AcceptsLayouts};

// What is built reads back, and what is read, built again, is the same datagram. It has no code: its contract is the theorem.
pub fn reader_and_builder_are_inverse()
    ensures { Inverse }
{}

// What the reader accepts is exactly the listed layouts. It has no code: its contract is the theorem.
pub fn reader_accepts_listed_layouts()
    ensures { AcceptsLayouts }
{}
