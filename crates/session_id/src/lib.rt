//! The session identifiers that ASP.NET generates: 120 bits, written as 24 characters from `a` to
//! `z` and `0` to `5`.
#![tactic(auto)]

mod digits;
mod display;
mod hexadecimal;
mod id;

pub use hexadecimal::read_hex;
pub use id::{Id, correspondence};

#[cfg(test)]
mod tests;
