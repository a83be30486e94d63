//! The cookies that name acquisitions: numbers drawn in order from a first one to a last one, by
//! one thread or by many.
#![tactic(auto)]

mod counter_rule;
mod plain_cookies;
mod source;

pub use counter_rule::DrawerView;
pub use plain_cookies::PlainCookies;
pub use source::{CookieSource, Drawer, FreshCookies};
