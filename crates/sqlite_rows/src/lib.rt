//! The statements on the tables of SQL mode. Each has one text and is one call of the database, and
//! what it says, it says of the rows alone: where the database has the known tables and nothing
//! else, no transaction is open, and the connection is open after the call.
#![tactic(auto)]

mod cookies;
mod items;
mod known;
mod making;
mod moves;

pub use cookies::{all_cookies, begin_cookies, greatest_row, last_row, set_last};
pub use items::{cut_row, due_row, item_row, learn_keys, put_row};
pub use known::is_known;
pub use making::{index_items, index_items2, make_cookies, make_items, make_items2, understand};
pub use moves::{drop_row, first_row, move_row};
