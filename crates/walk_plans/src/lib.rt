#![tactic(auto)]

// The plan of a run: the tests of a word's operands, and its operands resolved.
pub mod checks;
pub mod planning;
