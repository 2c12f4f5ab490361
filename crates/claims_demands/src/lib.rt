#![tactic(auto)]

// Theorems only: what the requirements claim of runs stands in specs/.
