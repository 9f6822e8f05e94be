// Patterns of byte strings and what is proved once about them stand in specs/ and proofs/. No code.
#![tactic(auto)]
