// Document 01 as definitions stands in specs/, and the theorems about them in proofs/. No code.
#![tactic(auto)]
