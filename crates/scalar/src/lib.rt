#![tactic(auto)]

// The operators of RV64I and RV64M, and the 64-bit values that they work on.

// The width of a memory access.
pub mod width;

// Signed or unsigned.
pub mod signedness;

// Two's complement: signed compare, arithmetic shift, sign extension.
pub mod signed;

// The operators.
pub mod operator;
