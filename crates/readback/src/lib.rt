// What the market writes is read back as it was written: statements only (proofs/Theorems.antt).
#![tactic(auto)]
