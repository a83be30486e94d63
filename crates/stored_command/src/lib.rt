//! The commands whose items are in a database: their history begins with the items that it holds,
//! and their cookies are those of a block that it sets aside.
#![tactic(auto)]

mod stored;

pub use stored::{NO_BLOCK, command_stored};
