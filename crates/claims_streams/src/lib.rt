#![tactic(auto)]

// Theorems about the definition of a stream's output: claims in specs/, proofs in proofs/.
