#![tactic(auto)]

// Numbers and lines as text, written into bytes that are lent.

// A number in decimal digits.
mod decimal;

// The lines that a stream prints.
pub mod lines;
