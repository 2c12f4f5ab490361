#![tactic(auto)]

// The two tables: their entries, and what a CFG enables.
pub mod enabled;
pub mod entry;

// Entries of each table.
pub const ENTRIES: usize = 16;
