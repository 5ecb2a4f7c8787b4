// The script, on standard input, as bench/script.py writes it; numbers have two bytes, the high one first. It starts with N, F, C
// and how many steps there are. A step is its kind and what of it is counted (1 byte each), a packet and which of its fragments,
// and how many bytes follow: an item to send, or a datagram that comes. What is cut off counts as 0.
use crate::marks::{Counted, Marks};
use packet::OrderingGuarantee;
use serial::PacketNumber;
use std::io::{Read, Stdin, Stdout};
use terms::Sizes;

#[derive(Clone, Copy)]
pub enum Call {
    Send(OrderingGuarantee),
    Receive,
    Take,
    // The check of the state, which each call makes first, and a further fragment of the packet.
    Look(PacketNumber, usize),
}

impl Call {
    fn of(kind: u8, packet: PacketNumber, part: usize) -> Call {
        match kind {
            1 => Call::Send(OrderingGuarantee::Ordered),
            2 => Call::Receive,
            3 => Call::Take,
            4 => Call::Look(packet, part),
            _ => Call::Send(OrderingGuarantee::None),
        }
    }
}

#[derive(Clone, Copy)]
pub struct Step<'a> {
    pub call: Call,
    pub marks: Marks,
    pub bytes: &'a [u8],
}

#[derive(Drop)]
pub struct Script {
    input: Stdin,
    room: [u8; 16401],
}

impl Script {
    pub fn new(input: Stdin) -> Script {
        Script {
            input,
            room: [0; 16401],
        }
    }

    // The sizes, and how many steps there are. M is 16, and V laminar's.
    pub fn begin(&mut self) -> (Sizes, u16) {
        let [n, f, c, steps] = self.head();
        let sizes = Sizes {
            fragment_size: f as usize,
            reassembly_slots: c as usize,
            max_fragments: 16,
            packets_in_flight: n as usize,
            version: 21513,
        };
        (sizes, steps)
    }

    pub fn next(&mut self, stdout: Stdout) -> Step<'_> {
        let [kinds, packet, part, count] = self.head();
        let [kind, counted] = kinds.to_be_bytes();
        let count = count as usize;
        self.read(count);
        let marks = Marks {
            stdout,
            counted: Counted::from(counted),
        };
        marks.set(Counted::TheMarks);
        marks.set(Counted::TheMarks);
        Step {
            call: Call::of(kind, PacketNumber(packet), part as usize),
            marks,
            bytes: self.room.get(..count).unwrap_or(&[]),
        }
    }

    // Four numbers.
    fn head(&mut self) -> [u16; 4] {
        let mut head = [0u8; 8];
        let _ = self.input.read_exact(&mut head);
        let [a, b, c, d, e, f, g, h] = head;
        [[a, b], [c, d], [e, f], [g, h]].map(u16::from_be_bytes)
    }

    // Reads so many bytes, or none where there is no room for them.
    fn read(&mut self, count: usize) {
        self.room = [0; 16401];
        let room = &mut self.room[..];
        if let Some(bytes) = room.get_mut(..count) {
            let _ = self.input.read_exact(bytes);
        }
    }
}
