// The marked examples of 01 and 02: what the papers say of them in specs/, and that the definitions compute it in proofs/. No code.

#![tactic(auto)]
