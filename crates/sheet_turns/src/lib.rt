// What the sheet program prints is defined in specs/, and that bytes in parts give the same is proved in proofs/. No code.
#![tactic(auto)]
