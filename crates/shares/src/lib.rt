// No code: specs/ defines what a file's share holds, proofs/ has the laws.

#![tactic(auto)]
