// Which streams of a kind an end has, at most four, each under an id; and what is judged of the ordered ones before anything is
// written. Read `ordered::judge` first: a fifth stream is one whose place is 4. `gate` has what is refused at once. It leaves out
// what is done then, the sequenced streams, and the calls of a user: those are `arranging`.
#![tactic(auto)]

pub mod gate;
pub mod ids;
pub mod ordered;
