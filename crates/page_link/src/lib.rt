//! One page's visit over a link to the state server: requests are written, answers are read, and
//! the visit's pauses are kept, until it comes to its end.
#![tactic(auto)]

mod client;
mod exchange;
mod hearing;
mod link;
mod memory_link;
mod tcp_link;
mod visit_end;
mod visit_turn;
mod whole_visit;

pub use link::Link;
pub use memory_link::MemoryLink;
pub use tcp_link::TcpLink;
pub use visit_end::VisitEnd;
pub use whole_visit::run_visit;
