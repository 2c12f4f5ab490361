#![tactic(auto)]

// Which instruction a word is, and the fields that it has.
pub mod fields;
pub mod form;
