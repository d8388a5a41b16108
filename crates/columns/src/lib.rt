// No code: proofs/ shows that no line of the night board has more than 80 columns.

#![tactic(auto)]
