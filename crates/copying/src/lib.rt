// Copies bytes into what is lent. Every part of a link that hands bytes out or keeps them does it by `copy`.
#![tactic(auto)]

ghost use Rattle.std.specs.Prelude.{◌≡◌, ◌++◌, ◌≤◌, length, take, drop};

// `to` begins with the bytes of `from`, and what lies behind them stays. Requires that they fit.
pub fn copy(from: &[u8], to: &mut [u8])
    requires { length from.now ≤ length to.old }
    ensures len { length to.new ≡ length to.old }
    ensures after { to.new ≡ take (length from.now) from.now ++ drop (length from.now) to.old }
{
    to[..from.len()].copy_from_slice(from);
}
