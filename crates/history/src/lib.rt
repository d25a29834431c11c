// Mathematics only: lists of calls, the leaf book, and demand 3 (Rules 6). The definitions stand in specs/, the proofs in proofs/.

#![tactic(auto)]
