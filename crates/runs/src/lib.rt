// No code: what the five calls do over whole runs. specs/ states it, proofs/ proves it.

#![tactic(auto)]
