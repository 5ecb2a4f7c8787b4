// The numbers in a body. It is read from its front, and one that is too short or too long for its tag is bad.
ghost use Rattle.std.specs.Prelude.{◌≡◌, ◌<◌, ◌≤◌, ◌⊎◌, [], ◌∷◌, ◌++◌, length, take, drop, slice_index, Ok, IfOk, IfErr};
ghost use Rattle.std.specs.Int.{w16, w32, from_be_bytes};
ghost use Rattle.script.specs.declared.Stop.TheVariants.{Bad};

use crate::Stop;

// What is left of a body.
#[derive(Clone, Copy)]
pub struct Body<'a>(pub &'a [u8]);

// laminar's stream where none is given.
const DEFAULT_STREAM: u8 = 255;

impl<'a> Body<'a> {
    pub fn byte(&mut self) -> Result<u8, Stop>
        ensures first { IfOk result (λ byte. self.old.0.now ≡ byte ∷ self.new.0.now) }
        ensures none { IfErr result (λ why. (why ≡ Bad) × (self.old.0.now ≡ []) × (self.new.0.now ≡ [])) }
    {
        let [byte] = self.bytes::<1>()?;
        Ok(byte)
    }

    // A byte below a limit, as one that stands for a kind.
    pub fn below(&mut self, limit: u8) -> Result<u8, Stop>
        ensures first { IfOk result (λ byte. self.old.0.now ≡ byte ∷ self.new.0.now) }
        ensures small { IfOk result (λ byte. byte < limit) }
        ensures bad { IfErr result (λ why. (why ≡ Bad) × (length self.old.0.now ≡ 0 ⊎ limit ≤ slice_index self.old.0.now 0)) }
        ensures left { self.new.0.now ≡ drop 1 self.old.0.now }
    {
        let byte = self.byte()?;
        if byte < limit {
            Ok(byte)
        } else {
            Err(Stop::Bad)
        }
    }

    pub fn number(&mut self) -> Result<u16, Stop>
        ensures first { IfOk result (λ number. (2 ≤ length self.old.0.now) × (number ≡ from_be_bytes w16 (take 2 self.old.0.now))) }
        ensures rest { IfOk result (λ _. self.new.0.now ≡ drop 2 self.old.0.now) }
        ensures none { IfErr result (λ why. (why ≡ Bad) × (length self.old.0.now < 2) × (self.new.0.now ≡ self.old.0.now)) }
    {
        Ok(u16::from_be_bytes(self.bytes()?))
    }

    pub fn long(&mut self) -> Result<u32, Stop>
        ensures first { IfOk result (λ number. (4 ≤ length self.old.0.now) × (number ≡ from_be_bytes w32 (take 4 self.old.0.now))) }
        ensures rest { IfOk result (λ _. self.new.0.now ≡ drop 4 self.old.0.now) }
        ensures none { IfErr result (λ why. (why ≡ Bad) × (length self.old.0.now < 4) × (self.new.0.now ≡ self.old.0.now)) }
    {
        Ok(u32::from_be_bytes(self.bytes()?))
    }

    // Whether a stream is given, 0 or 1, and then the stream.
    pub fn stream(&mut self) -> Result<u8, Stop>
        ensures there { IfOk result (λ _. (2 ≤ length self.old.0.now) × (slice_index self.old.0.now 0 < 2)) }
        ensures given { IfOk result (λ stream. slice_index self.old.0.now 0 ≡ 1 → stream ≡ slice_index self.old.0.now 1) }
        ensures none { IfOk result (λ stream. slice_index self.old.0.now 0 ≡ 0 → stream ≡ 255) }
        ensures rest { IfOk result (λ _. self.new.0.now ≡ drop 2 self.old.0.now) }
        ensures bad { IfErr result (λ why. (why ≡ Bad) × (length self.old.0.now < 2 ⊎ 2 ≤ slice_index self.old.0.now 0)) }
        ensures left { IfErr result (λ _. self.new.0.now ≡ drop 1 self.old.0.now) }
    {
        let given = self.below(2)? == 1;
        let stream = self.byte()?;
        Ok(if given { stream } else { DEFAULT_STREAM })
    }

    // Nothing is left.
    pub fn end(self) -> Result<(), Stop>
        ensures ok { self.entry.0.now ≡ [] → result ≡ Ok tt }
        ensures bad { IfOk result (λ _. self.entry.0.now ≡ []) }
    {
        if self.0.is_empty() {
            Ok(())
        } else {
            Err(Stop::Bad)
        }
    }

    fn bytes<const N: usize>(&mut self) -> Result<[u8; N], Stop>
        ensures first { IfOk result (λ bytes. self.old.0.now ≡ bytes ++ self.new.0.now) }
        ensures none { IfErr result (λ why. (why ≡ Bad) × (length self.old.0.now < N) × (self.new.0.now ≡ self.old.0.now)) }
    {
        let Some((bytes, rest)) = self.0.split_first_chunk() else {
            return Err(Stop::Bad);
        };
        self.0 = rest;
        Ok(*bytes)
    }
}
