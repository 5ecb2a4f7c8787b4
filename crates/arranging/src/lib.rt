// The streams of each kind that an end has: at most four, each under an id, made by its first accepted item, sent or received.
// `calls` are a user's; `calls::arrange` is the one to read first. `ordered` and `sequenced` are for the crates above, which
// judge a whole call before the first write. It leaves out that judging: that is `arranging_plan`.
#![tactic(auto)]

pub mod calls;
pub mod ordered;
pub mod sequenced;
