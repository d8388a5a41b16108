// No code: specs/ defines when the lent memories stand for a desk of the rules; proofs/ has the laws.

#![tactic(auto)]
