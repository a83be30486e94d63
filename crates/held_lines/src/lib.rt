//! Bytes that come in pieces and are taken line by line, with each byte sought once.
#![tactic(auto)]

mod held_lines;

pub use held_lines::HeldLines;
