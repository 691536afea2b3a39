// What the market promises over any history of calls: definitions (specs/) and theorems (proofs/) only.
#![tactic(auto)]
