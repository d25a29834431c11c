// Mathematics only: Poseidon2's permutation, its inverse and compression. The definitions stand in specs/, their laws in proofs/.

#![tactic(auto)]
