// Lemmas that more than one crate cites. No code: read proofs/, one topic a file.
#![tactic(auto)]
