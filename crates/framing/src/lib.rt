// The frame rules over any suite: definitions (specs/) and laws (proofs/). The crates `suite`, `reader`, `writer` and `frame` have the code.
#![tactic(auto)]
