// Columns of keys. An entry below 65,536 is a key (a packet number, an item's index); any other has none.
// Every table of a link is found in and checked by the two functions here: `find` and `has_twice`.
#![tactic(auto)]

ghost use Rattle.std.specs.Prelude.{◌≡◌, true, false, ℕ, ◌+◌, ◌≤◌, ◌<◌, length, get_or};
ghost use Rattle.keys.specs.Keys.{first_place, found, twice};
ghost use Rattle.keys.specs.Exact.{TwiceIsExact};

mod marks;
mod slots;

// The first place of a key.
pub fn find(keys: &[u32], key: u16) -> Option<usize>
    ensures { result ≡ found (first_place key keys.now) (length keys.now) }
{
    keys.iter().position(|entry| *entry == key as u32)
}

// No entry is below a number. Without a branch for each the compiler looks at several at once. A `false` says nothing. For the
// crates above.
pub fn none_below(keys: &[u32], least: u32) -> bool
    ensures { result ≡ true → (k : ℕ) → k < length keys.now → least ≤ get_or keys.now k 0 }
{
    let mut all = u32::MAX;
    for key in keys {
        all &= *key;
    }
    least <= all
}

// Two places hold the same key. The first two tests are cheap and hold of most columns that have no key twice.
pub fn has_twice(keys: &[u32]) -> bool
    ensures { result ≡ twice keys.now }
{
    if at_home(keys) || rising(keys) {
        return false;
    }
    marks::has_twice(keys)
}

// Each key stands at its remainder by the column's length, as a sequence buffer puts it. A `false` says nothing.
fn at_home(keys: &[u32]) -> bool
    ensures { result ≡ true → twice keys.now ≡ false }
{
    if keys.len() == slots::SLOTS {
        return slots::at_home(keys);
    }
    for (i, key) in keys.iter().enumerate() {
        if *key < 65536 && *key as usize % keys.len() != i {
            return false;
        }
    }
    true
}

// Each entry is above the one before it, as items that wait for a lost one arrive.
fn rising(keys: &[u32]) -> bool
    ensures { result ≡ true → twice keys.now ≡ false }
{
    for i in 1..keys.len() {
        if keys[i] <= keys[i - 1] {
            return false;
        }
    }
    true
}

// `has_twice` is exact. It has no code: its contract is the theorem.
#[tactic(auto, using(crate::proofs::Twice::exact))]
pub fn twice_is_exact()
    ensures { TwiceIsExact }
{}
