// No code: proofs/ shows, on whole tables, that every clause of a market matters.
#![tactic(auto)]
