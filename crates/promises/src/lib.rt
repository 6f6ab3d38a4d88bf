// Demand 3 as one theorem over whole lists of learning calls: definitions in specs/, their proofs in proofs/. No code.

#![tactic(auto)]
