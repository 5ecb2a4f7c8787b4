// The terms of a link: its sizes, and the numbers that come back where a call is refused.
// Every entry point of every crate is given the same sizes and answers with the same refusals.
#![tactic(auto)]

ghost use Rattle.std.specs.Prelude.{◌≡◌};
ghost use Rattle.terms.specs.Refusals.{number_of};
ghost use Rattle.terms.specs.Sizes.{in_range};

// Document 01, "Numbers that come back", in its order.
#[derive(Clone, Copy, PartialEq, Eq, Debug)]
pub enum Refusal {
    BadSizes = 1,
    BadStorage,
    CouldNotReadHeader,
    BadHeader,
    TooLong,
    Full,
    NoStream,
    ExceededMaxFragments,
    CouldNotFindFragmentById,
    FragmentWithUnevenNumberOfFragments,
    AlreadyProcessedFragment,
    MissingAckHeader,
    BadState,
}

// The number that document 01 gives a refusal.
impl From<Refusal> for u8 {
    ghost from_gives = { λ refusal number. number ≡ number_of refusal };

    fn from(refusal: Refusal) -> u8 {
        refusal as u8
    }
}

// Document 01, "Sizes of a link". Any numbers may be given: those out of range are refused.
#[derive(Clone, Copy)]
pub struct Sizes {
    // F, the bytes of a fragment.
    pub fragment_size: usize,
    // C, the messages that may be put together at a time.
    pub reassembly_slots: usize,
    // M, the most fragments of a message.
    pub max_fragments: usize,
    // N, the packets that may be in flight at a time.
    pub packets_in_flight: usize,
    // V, the version word.
    pub version: u16,
}

impl Sizes {
    #[tactic(auto, unfolding(crate::specs::Sizes::between, crate::specs::Sizes::in_range))]
    pub fn in_range(self) -> bool
        ensures { result ≡ in_range self }
    {
        (1..=1024).contains(&self.fragment_size)
            && (1..=64).contains(&self.reassembly_slots)
            && (1..=16).contains(&self.max_fragments)
            && (1..=256).contains(&self.packets_in_flight)
    }
}
