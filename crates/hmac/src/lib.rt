// HMAC over any hash: definitions (specs/) and laws (proofs/). A hash's own crate has the code.
#![tactic(auto)]
