#![tactic(auto)]

// Definitions and theorems only: the definitions stand in specs/, the laws in proofs/.
