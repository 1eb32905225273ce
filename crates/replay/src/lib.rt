// Theorems about a sheet replayed: definitions and statements in specs/, proofs in proofs/. There is no code: hosts replay sheets by their own.
#![tactic(auto)]
