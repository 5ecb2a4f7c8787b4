// A row of byte strings in one array: the datagrams that an end has sent, or the payloads that it has given up. Its limits are
// those of a script's form, so it has fixed memory and no heap.

ghost use Rattle.std.specs.Prelude.{◌≡◌, ◌≤◌, ◌<◌, ◌+◌, ◌-◌, true, false, None, IfSome, take, drop, slice_index};

// The most strings.
pub const MOST: usize = 1024;

const ENDS: usize = MOST + 1;

#[derive(Clone, Copy)]
pub struct Log {
    // Where each string ends, behind a first 0.
    ends: [usize; ENDS],
    count: usize,
    bytes: [u8; 262144],
    // Whether there was a string that it had no room for: the line of its field is told to the end before that ends the run.
    full: bool,
}

impl Log {
    pub fn new() -> Log
        ensures { (result.count ≡ 0) × (result.full ≡ false) }
    {
        Log {
            ends: [0; ENDS],
            count: 0,
            bytes: [0; 262144],
            full: false,
        }
    }

    // It has no string. What its bytes are does not count then.
    pub fn clear(&mut self)
        ensures empty { (self.new.count ≡ 0) × (self.new.full ≡ false) }
        ensures stay { (self.new.ends ≡ self.old.ends) × (self.new.bytes ≡ self.old.bytes) }
    {
        self.count = 0;
        self.full = false;
    }

    pub fn is_full(&self) -> bool
        ensures { result ≡ self.now.full }
    {
        self.full
    }

    pub fn get(&self, place: usize) -> Option<&[u8]>
        ensures none { self.now.count ≤ place → result ≡ None }
        ensures there { place < self.now.count → place < 1024 → slice_index self.now.ends place ≤ slice_index self.now.ends (place + 1) → slice_index self.now.ends (place + 1) ≤ 262144 → IfSome result (λ string. string.now ≡ take (slice_index self.now.ends (place + 1) - slice_index self.now.ends place) (drop (slice_index self.now.ends place) self.now.bytes)) }
    {
        if self.count <= place {
            return None;
        }
        let start = *self.ends.get(place)?;
        let end = *self.ends.get(place + 1)?;
        self.bytes.get(start..end)
    }

    pub fn push(&mut self, given: &[u8])
        ensures { self.old.full ≡ true → self.new.full ≡ true }
    {
        if self.put(given).is_none() {
            self.full = true;
        }
    }

    // None where there is no room.
    fn put(&mut self, given: &[u8]) -> Option<()>
        ensures { self.new.full ≡ self.old.full }
    {
        let start = *self.ends.get(self.count)?;
        let end = start.checked_add(given.len())?;
        let next = self.count.checked_add(1)?;
        *self.ends.get_mut(next)? = end;
        self.bytes.get_mut(start..end)?.copy_from_slice(given);
        self.count = next;
        Some(())
    }
}
