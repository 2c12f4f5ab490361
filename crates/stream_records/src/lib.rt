#![tactic(auto)]

// Record streams: one byte of kind, then a body whose length the kind fixes.

// The kinds, and what their bodies hold.
pub mod kind;

// One record, read from bytes that hold it.
pub mod record;

// The records of a stream that comes in pieces.
pub mod reader;
