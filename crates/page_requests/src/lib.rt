//! A browser's requests for pages: what their heads and bodies mean, the session identifier that a
//! request has in its cookies or in its path, and these requests as a kind of messages.
#![tactic(auto)]

mod cookie;
mod identities;
mod kind;
mod page;
mod request;

pub use identities::{Identity, Mode, identity_of};
pub use kind::PageRequests;
pub use page::{Page, page_of};
pub use request::{PageRequest, Verb};
