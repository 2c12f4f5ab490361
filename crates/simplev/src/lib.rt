#![tactic(auto)]

// The calls as C makes them, on arrays that are lent: include/simplev.h declares them. Their names, and the four arrays
// that each takes, are the C interface; what they share takes the arrays in one struct.
pub mod reading;
pub mod running;
pub mod setting;
pub mod version;
