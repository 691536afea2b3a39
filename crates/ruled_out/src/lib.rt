// No code: proofs/ shows of definitions, by computing them on bytes that a person can read, which answers they rule out.
#![tactic(auto)]
