// What a pitch that is a tenth of a degree off does to a load: document 02, A13. What is said stands in specs/, the theorems in proofs/;
// there is no code.
#![tactic(auto)]
