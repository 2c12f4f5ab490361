#![tactic(auto)]

// The lines of a file of test vectors.

// A hex digit, and a number of at most 16.
pub mod hex;

// A number in some base.
pub mod number;

// A line's layout, and the four numbers of a line that has it.
pub mod line;
