// No code: proofs that the soundness test holds exactly of the memories that stand for a desk (proofs/desk/Both.antt).

#![tactic(auto)]
