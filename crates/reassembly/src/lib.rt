// Fragments that arrive are put together to messages: read `handle_fragment` first. Which messages are being put together is
// told by a sequence buffer of C slots; what else an entry has stands in columns beside it, and its bytes in lent room.
// What is judged before anything is written is `reassembly_plan`; here it is done. It leaves out headers on the wire and
// acknowledgments: those are the link's.
#![tactic(auto)]

ghost use Rattle.reassembly.specs.Room.{lending};
ghost use Rattle.reassembly.specs.Call.{Handles};

use effects::Handled;
pub use reassembly_plan::plan::Fragment;
pub use reassembly_plan::words::AckHeader;
use serial::PacketNumber;
use terms::{Refusal, Sizes};

pub mod effects;

// A fragment has come: it joins its message, which is handed out where it is whole, or it is refused.
pub fn handle_fragment(
    sizes: Sizes,
    sequence_num: PacketNumber,
    slots: &mut [u32],
    entry: &mut [u64],
    header: &mut [u64],
    bytes: &mut [u8],
    fragment: Fragment,
    payload: &[u8],
    output: &mut [u8],
) -> Handled
    ensures { Handles sizes (lending sequence_num.0 slots.old entry.old header.old bytes.old) fragment payload.now output.old result slots.new entry.new header.new bytes.new output.new }
{
    if let Err(why) = reassembly_plan::gate::check(sizes, slots, entry, header, bytes, output) {
        return Handled {
            sequence_num,
            answer: Err(why),
        };
    }
    let f = sizes.fragment_size;
    if f < payload.len() {
        return Handled {
            sequence_num,
            answer: Err(Refusal::TooLong),
        };
    }
    let c = sizes.reassembly_slots;
    let judged = reassembly_plan::plan::judge(
        f,
        sequence_num,
        &slots[..c],
        entry,
        fragment,
        payload.len(),
    );
    let plan = match judged {
        Ok(plan) => plan,
        Err(why) => {
            return Handled {
                sequence_num,
                answer: Err(why),
            };
        }
    };
    effects::perform(
        f,
        sequence_num,
        &mut slots[..c],
        entry,
        header,
        bytes,
        fragment,
        Ok(plan),
        payload,
        output,
    )
}
