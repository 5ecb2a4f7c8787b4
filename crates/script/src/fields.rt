// A script is read field by field, out of a room that is filled from its start, so that a program needs no heap.
use crate::{Body, Stop};
use std::io::{ErrorKind, Read};

// A field: its tag, and its body.
#[derive(Clone, Copy)]
pub struct Field<'a> {
    pub tag: u8,
    pub body: Body<'a>,
}

// The most bytes of a field.
const LONGEST: usize = 65538;

// How many bytes are read before the first field is.
const ROOM: usize = 196608;

// What a script is read from, and room for some of it. What has been read and not been used lies from `from` to `to`; `ended` where
// there is no more to read.
#[derive(Drop)]
pub struct Script<R: Read + Drop> {
    input: R,
    room: [u8; ROOM],
    from: usize,
    to: usize,
    ended: bool,
}

impl<R: Read + Drop> Script<R> {
    pub fn new(input: R) -> Script<R> {
        Script {
            input,
            room: [0; ROOM],
            from: 0,
            to: 0,
            ended: false,
        }
    }

    // The next field, none where the input has ended. One that is cut off is bad. After either a later call asks the input again.
    pub fn field(&mut self) -> Result<Option<Field<'_>>, Stop> {
        self.fill();
        let left = self.room.get(self.from..self.to).unwrap_or(&[]);
        let Some((tag, body)) = first(left) else {
            self.ended = false;
            return if left.is_empty() {
                Ok(None)
            } else {
                Err(Stop::Bad)
            };
        };
        self.from = self.from.saturating_add(3 + body.len());
        Ok(Some(Field {
            tag,
            body: Body(body),
        }))
    }

    // Reads on where less than a whole field may be left.
    fn fill(&mut self) {
        let left = self.to.saturating_sub(self.from);
        if self.ended || LONGEST <= left || ROOM < self.to {
            return;
        }
        self.room.copy_within(self.to - left..self.to, 0);
        self.from = 0;
        self.to = left;
        self.read();
        self.ended = self.to < ROOM;
    }

    // Until the room is full or nothing comes. A read that is interrupted is tried again: so nothing says how many there are.
    #[inline(never)]
    fn read(&mut self) {
        for _ in 0..u64::MAX {
            let room = self.room.get_mut(self.to..).unwrap_or(&mut []);
            match self.input.read(room) {
                Ok(0) => break,
                Ok(count) => self.to = self.to.saturating_add(count),
                Err(error) if error.kind() == ErrorKind::Interrupted => {}
                Err(_) => break,
            }
        }
    }
}

// The tag and the body of the field at the start, none where it is cut off.
fn first(bytes: &[u8]) -> Option<(u8, &[u8])> {
    let (head, rest) = bytes.split_first_chunk::<3>()?;
    let [tag, high, low] = *head;
    let body = rest.get(..u16::from_be_bytes([high, low]) as usize)?;
    Some((tag, body))
}
