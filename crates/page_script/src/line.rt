//! The lines of a script.
use crate::Name;
use asp_base::Bytes;
use visit_core::{Ending, Limits, Need};

/// The most bytes of a line, without its line feed.
pub const MOST_SCRIPT_LINE: usize = 65_536;

/// What a `page` line says of a page.
#[derive(Debug, PartialEq, Eq, Drop)]
pub struct PageLine {
    /// The page's name in the script.
    pub name: Name,
    /// The session's key, 1 to 1,024 bytes.
    pub key: Bytes,
    /// What the page needs of the session.
    pub need: Need,
    /// How the page ends.
    pub ending: Ending,
}

/// A line of a script.
#[derive(Debug, PartialEq, Eq, Drop)]
pub enum Line {
    /// The limits of the pages named after it.
    Limits(Limits),
    /// A page, with an empty past.
    Page(PageLine),
    /// One step of a page.
    Step {
        /// The moment of the step, in milliseconds, at most 2^62.
        moment: u64,
        /// The page's name.
        name: Name,
    },
}
