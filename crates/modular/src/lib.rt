// Mathematics only: numbers modulo p. The definitions stand in specs/, their laws in proofs/.

#![tactic(auto)]
