// The field of a record in laps, as it is nearly always: which slots have one of the 32 numbers before the newest is told without a
// branch for each, so that the compiler looks at several at once, and then turned so that it begins below the newest.
ghost use Rattle.std.specs.Prelude.{◌≡◌, ◌%◌, ◌<◌, ◌≤◌, true, length, if◌then◌else◌, slice_index};
ghost use Rattle.laws.specs.Bits.{bits_below};
ghost use Rattle.received.specs.Record.{slot_count};
ghost use Rattle.received.specs.Field.{heard};
ghost use Rattle.received.specs.Recent.{is_recent, recent_at, Settled};

// The newest number stands in its slot, and has 32 numbers below it. Requires the record's slots.
pub fn is_home(newest: u16, slots: &[u32]) -> bool
    requires { length slots.now ≡ slot_count }
    ensures { result ≡ true → (32 ≤ newest) × (slice_index slots.now (newest % slot_count) ≡ newest) }
{
    32 <= newest && slots[(newest % 33) as usize] == newest as u32
}

// Bit k is that of the slot k + 1 below the newest number's, going round. Requires a record in laps that `is_home` holds of.
pub fn field(newest: u16, slots: &[u32]) -> u32
    requires { Settled newest slots.now }
    ensures { result ≡ bits_below (heard newest slots.now) 32 }
{
    let all = recent_slots(newest as u32 - 32, slots);
    let at = (newest % 33) as u32;
    if at == 32 {
        return (all / 2) as u32;
    }
    let turned = all << at;
    (turned % 4294967296 + (turned >> 33)) as u32
}

// Bit 32 - i says that slot i has one of the 32 numbers from the oldest on. Requires the record's slots.
fn recent_slots(oldest: u32, slots: &[u32]) -> u64
    requires { (length slots.now ≡ slot_count) × (oldest < 65536) }
    ensures { result ≡ bits_below (recent_at oldest slots.now) 33 }
{
    let mut all = u32::MAX;
    for i in 1..33 {
        all &= unless_recent(oldest, slots[i], u32::MAX - (1 << (32 - i)));
    }
    is_recent(oldest, slots[0]) as u64 * 4294967296 + all as u64
}

// All bits, or another word where an entry is not recent.
fn unless_recent(oldest: u32, entry: u32, other: u32) -> u32
    requires { oldest < 65536 }
    ensures { result ≡ (if is_recent oldest entry then 4294967295 else other) }
{
    if is_recent(oldest, entry) {
        u32::MAX
    } else {
        other
    }
}

#[tactic(auto, unfolding(crate::specs::Recent::is_recent))]
fn is_recent(oldest: u32, entry: u32) -> bool
    requires { oldest < 65536 }
    ensures { result ≡ is_recent oldest entry }
{
    entry.wrapping_sub(oldest) % 2147483648 < 32
}
