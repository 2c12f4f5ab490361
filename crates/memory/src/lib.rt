#![tactic(auto)]

// Little-endian accesses of 1, 2, 4 and 8 bytes to a lent memory, at any address. Memory, address and width are passed
// apart: a store is lent the memory to write it, and the width is told apart before the others are used.
pub mod access;
pub mod load;
pub mod read;
pub mod store;
mod write;
