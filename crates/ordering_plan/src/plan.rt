// For the crates above: an item that has come is judged. Nothing is written before every check of a call is done, so judging
// and doing are two functions: the other is `perform` of `ordering`.
ghost use Rattle.std.specs.Prelude.{◌≡◌, ◌≤◌, length};
ghost use Rattle.ordering_plan.specs.Arrange.{plan_of};

use crate::{Arranged, OrderingStream};
use serial::ItemId;
use terms::Refusal;

// What is to become of an item. For the crates above: requires a table of 64 places and at most 64 held.
pub fn judge(stream: OrderingStream, index: &[u32], item: ItemId) -> Result<Arranged, Refusal>
    requires { (stream.held ≤ 64) × (64 ≤ length index.now) }
    ensures { result ≡ plan_of stream index.now item.0 }
{
    let expected = stream.expected_index;
    let d = serial::distance(item.0, expected.0);
    if d == 0 {
        return Ok(Arranged::Out);
    }
    if 32768 < d {
        return Ok(Arranged::Old);
    }
    let held = stream.held;
    match keys::find(&index[..held], item.0) {
        Some(place) => Ok(Arranged::Held(place)),
        None if held == 64 => Err(Refusal::Full),
        None => Ok(Arranged::Held(held)),
    }
}
