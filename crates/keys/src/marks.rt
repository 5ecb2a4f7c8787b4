// Whether a column has a key twice, for any column: one pass, with a bit for each key seen.
ghost use Rattle.std.specs.Prelude.{◌≡◌};
ghost use Rattle.keys.specs.Keys.{twice};

pub fn has_twice(keys: &[u32]) -> bool
    ensures { result ≡ twice keys.now }
{
    let mut seen = [0u64; 1024];
    for key in keys {
        if *key < 65536 {
            let word = (*key / 64) as usize;
            let bit = *key % 64;
            if (seen[word] >> bit) % 2 == 1 {
                return true;
            }
            seen[word] |= 1 << bit;
        }
    }
    false
}
