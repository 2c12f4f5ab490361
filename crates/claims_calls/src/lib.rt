#![tactic(auto)]

// Theorems about the setting and reading calls: claims in specs/, proofs in proofs/. No code.
