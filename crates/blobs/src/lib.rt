// Mathematics only: files as words, and the leaf that is made of them. The definitions stand in specs/, their laws in proofs/.

#![tactic(auto)]
