// Mathematics only: numbers as bytes. The definitions stand in specs/, their laws in proofs/.

#![tactic(auto)]
