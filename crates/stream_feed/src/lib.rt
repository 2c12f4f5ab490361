#![tactic(auto)]

// A record stream applied to a machine and its memory, and the text that it prints.

// What a record does.
mod apply;

// What is printed of it.
mod report;

// A piece of a stream.
pub mod feed;

// The end of a stream.
pub mod finish;
