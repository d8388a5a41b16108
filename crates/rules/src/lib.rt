// No code: the definition of the desk is in specs/, its computed sessions in proofs/.

#![tactic(auto)]
