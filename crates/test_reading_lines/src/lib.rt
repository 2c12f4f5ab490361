#![tactic(auto)]

// The lines of a file of readings: a call by its name, its arguments, and what it must answer.

// The words of a line.
mod words;

// A word as a number.
mod number;

// The calls, and the numbers that each takes.
pub mod call;

// A line as a whole.
pub mod line;

// The lines counted.
pub mod tally;
