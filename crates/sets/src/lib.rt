// Document 02 (h): the set of a venue, as definitions in specs/, and their theorems in proofs/.
#![tactic(auto)]
