// No code: a saved sheet loads back to the same geometry and records, and saving those gives the same sheet. specs/ states it, proofs/ proves it.

#![tactic(auto)]
