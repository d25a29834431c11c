// Mathematics only: a state by its blocks, as the fast path has it, over any p. The definitions stand in specs/, their laws in proofs/.

#![tactic(auto)]
