#![tactic(auto)]

// Theorems only: the bench readings of the requirements, by computation on the definitions.
