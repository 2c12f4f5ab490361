#![tactic(auto)]

// Bits of words, members of lists, and tests: definitions in specs/, laws in proofs/. No code.
