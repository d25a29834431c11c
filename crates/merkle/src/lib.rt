// Mathematics only: the tree over any compression. The definitions stand in specs/, their laws in proofs/.

#![tactic(auto)]
