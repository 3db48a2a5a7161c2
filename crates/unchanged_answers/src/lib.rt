// Answers of every call that don't change: document 02, A8, "no job dated before the set changes", and A10, a sheet written in the one
// way. What is said stands in specs/, the theorems in proofs/; there is no code.
#![tactic(auto)]
