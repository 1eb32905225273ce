// Theorems about the layer of four venues: definitions and statements in specs/, proofs in proofs/. The code is in crate dispatch.
#![tactic(auto)]
