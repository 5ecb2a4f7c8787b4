// A script is read to its end, also where it has more bytes than the room, and over a reader that stops on the way: at an
// interruption that is asked again at once, at an end or an error by a later call.
use crate::{Script, Stop};
use std::io;
use std::io::{ErrorKind, Read};
use std::test::Fail;

// Fields of 0, 5 and 2 bytes, with tags 1, 2 and 3, which stand for each byte too. They end at 3, 11 and 16.
const BYTES: [u8; 16] = [1, 0, 0, 2, 0, 5, 2, 2, 2, 2, 2, 3, 0, 2, 3, 3];

// It gives a byte at a time, and before the one at a place it stops once: with an error, or as at its end where there is none.
#[derive(Clone, Copy)]
struct Stopping {
    at: usize,
    place: usize,
    error: Option<ErrorKind>,
    stopped: bool,
}

impl Read for Stopping {
    fn read(&mut self, buf: &mut [u8]) -> io::Result<usize> {
        if self.at == self.place && !self.stopped {
            self.stopped = true;
            return self.error.map_or(Ok(0), |kind| Err(io::Error::from(kind)));
        }
        let rest = BYTES.get(self.at..).unwrap_or(&[]);
        let count = rest.len().min(buf.len()).min(1);
        buf[..count].copy_from_slice(&rest[..count]);
        self.at = self.at.saturating_add(count);
        Ok(count)
    }
}

fn over(place: usize, error: Option<ErrorKind>) -> Script<Stopping> {
    Script::new(Stopping {
        at: 0,
        place,
        error,
        stopped: false,
    })
}

// The tag of the next field, 0 where there is none. One that has not the bytes of its tag is bad.
fn tag(script: &mut Script<Stopping>) -> Result<u8, Stop> {
    let Some(field) = script.field()? else {
        return Ok(0);
    };
    let tag = field.tag;
    let bytes = field.body.0;
    let lengths = [0, 0, 5, 2];
    if lengths.get(tag as usize) != Some(&bytes.len()) || bytes.iter().any(|byte| *byte != tag) {
        return Err(Stop::Bad);
    }
    Ok(tag)
}

// The tags that the next four calls tell, 255 for a bad one.
fn tags(script: &mut Script<Stopping>) -> [u8; 4] {
    let mut told = [0; 4];
    for next in &mut told {
        *next = tag(script).unwrap_or(255);
    }
    told
}

#[test]
fn an_interrupted_read_is_tried_again(rt: HostRuntime) -> Result<(), Fail> {
    for place in 0..=BYTES.len() {
        let mut script = over(place, Some(ErrorKind::Interrupted));
        assert_eq!(rt; tags(&mut script), [1, 2, 3, 0]);
    }
    Ok(())
}

#[test]
fn what_comes_behind_an_end_is_read_by_a_later_call(rt: HostRuntime) -> Result<(), Fail> {
    for error in [None, Some(ErrorKind::WouldBlock)] {
        assert_eq!(rt; tags(&mut over(0, error)), [0, 1, 2, 3]);
        assert_eq!(rt; tags(&mut over(3, error)), [1, 0, 2, 3]);
        assert_eq!(rt; tags(&mut over(11, error)), [1, 2, 0, 3]);
        assert_eq!(rt; tags(&mut over(16, error)), [1, 2, 3, 0]);
    }
    Ok(())
}

#[test]
fn a_field_that_is_cut_off_is_bad_until_its_rest_comes(rt: HostRuntime) -> Result<(), Fail> {
    assert_eq!(rt; tags(&mut over(1, None)), [255, 1, 2, 3]);
    assert_eq!(rt; tags(&mut over(10, None)), [1, 255, 2, 3]);
    assert_eq!(rt; tags(&mut over(15, None)), [1, 2, 255, 3]);
    Ok(())
}

// How long the bodies are of a script over the room. Where the second field ends one byte of the third's is not in the room yet.
const LENGTHS: [u16; 6] = [65535, 65530, 65535, 65535, 0, 2];

// It gives as much as it is asked for while it has some. A field's place, from 1 on, is its tag and each byte of its body.
#[derive(Clone, Copy)]
struct Long {
    field: usize,
    at: usize,
}

impl Long {
    fn next(&mut self) -> Option<u8> {
        let length = *LENGTHS.get(self.field)?;
        let [high, low] = length.to_be_bytes();
        let tag = (self.field + 1) as u8;
        let byte = [tag, high, low].get(self.at).copied().unwrap_or(tag);
        self.at = self.at.saturating_add(1);
        if length as usize + 3 <= self.at {
            self.field += 1;
            self.at = 0;
        }
        Some(byte)
    }
}

impl Read for Long {
    fn read(&mut self, buf: &mut [u8]) -> io::Result<usize> {
        for (count, byte) in buf.iter_mut().enumerate() {
            let Some(next) = self.next() else {
                return Ok(count);
            };
            *byte = next;
        }
        Ok(buf.len())
    }
}

#[test]
fn a_script_has_more_bytes_than_the_room(rt: HostRuntime) -> Result<(), Fail> {
    let mut script = Script::new(Long { field: 0, at: 0 });
    for (place, length) in LENGTHS.iter().enumerate() {
        let Ok(Some(field)) = script.field() else {
            panic!(rt; "no field {place}");
        };
        let tag = field.tag;
        assert_eq!(rt; tag as usize, place + 1);
        assert_eq!(rt; field.body.0.len(), *length as usize);
        assert!(rt; field.body.0.iter().all(|byte| *byte == tag));
    }
    assert!(rt; matches!(script.field(), Ok(None)));
    Ok(())
}
