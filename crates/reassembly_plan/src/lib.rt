// What is judged of a fragment that has come, before anything is written: what is lent (`gate`), and what is to become of the
// fragment (`plan`). Read `plan::judge` first; `words` has the entries and headers that both read. It leaves out what is then
// done and answered: that is `reassembly`. Every function here is for the crates above.
#![tactic(auto)]

pub mod gate;
pub mod plan;
pub mod words;
