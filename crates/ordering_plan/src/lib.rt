// One ordered stream before anything of it is written: its counters, what is refused at once, and what is to become of an item
// that has come. `plan::judge` is the one to read first. It leaves out what is done then, and the calls of a user: those are
// `ordering`.
#![tactic(auto)]

ghost use Rattle.std.specs.Prelude.{◌≡◌};
ghost use Rattle.ordering_plan.specs.State.{fresh, numbered};

use serial::ItemId;
use terms::Refusal;

pub mod gate;
pub mod plan;

// The small counters of a stream. How it is called is told by whoever has several.
#[derive(Clone, Copy)]
pub struct OrderingStream {
    pub expected_index: ItemId,
    // The identifier of the next item sent.
    pub next_item: ItemId,
    // How many items wait, in the first places of the lent tables.
    pub held: usize,
}

// What becomes of an item that has come. `plan::judge` answers it as a plan, `ordering::arrange` once it is done.
#[derive(Clone, Copy)]
pub enum Arranged {
    Out,
    // At which place.
    Held(usize),
    Old,
}

#[derive(Clone, Copy)]
pub struct NewItem {
    pub item: ItemId,
    pub stream: OrderingStream,
}

impl OrderingStream {
    pub fn new() -> OrderingStream
        ensures { result ≡ fresh }
    {
        OrderingStream {
            expected_index: ItemId(0),
            held: 0,
            next_item: ItemId(0),
        }
    }

    // The identifier of an item that is sent on this stream.
    pub fn new_item_identifier(self) -> NewItem
        ensures { result ≡ numbered self }
    {
        let item = self.next_item;
        let next_item = item.successor();
        NewItem {
            item,
            stream: OrderingStream { next_item, ..self },
        }
    }
}
