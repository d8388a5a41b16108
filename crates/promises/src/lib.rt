// No code: specs/Promise.antt states what each of the five calls promises, for memories of any content; proofs/ has the laws.

#![tactic(auto)]
