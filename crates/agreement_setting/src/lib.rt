// What the computed runs share: the two ends that they are over, and what may happen as a test. No code: read specs/Setting.antt
// and proofs/May.antt. The runs are the crates `agreement_runs` and `agreement_filling`.
#![tactic(auto)]
