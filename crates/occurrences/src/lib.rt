// No code: counts of numbers in lists. specs/ defines what is counted, proofs/ has the laws.

#![tactic(auto)]
