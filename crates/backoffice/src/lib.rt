// What back offices tell from drop copies, over any history of a market. No code: definitions in specs, theorems in proofs.
#![tactic(auto)]
