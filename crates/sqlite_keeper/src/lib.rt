//! A keeper over a table of an SQLite database, in a file or in memory.
#![tactic(auto)]

mod blocks;
mod cookie_block;
mod failure;
mod items;
mod moving;
mod opening;
mod rows;
mod setting_aside;
mod sqlite_keeper;

pub use cookie_block::CookieBlock;
pub use sqlite_keeper::SqliteKeeper;
