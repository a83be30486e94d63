//! Page scripts: the lines of a script, read from their text, and the world in which they run,
//! where many pages visit one state server by a schedule.
#![tactic(auto)]

mod laws;
mod line;
mod line_parts;
mod line_reading;
mod name;
mod page;
mod page_request;
mod script;
mod script_page;
mod script_text;

pub use laws::{one_line, pages_keep_their_rule, runs_go_on};
pub use line::{Line, MOST_SCRIPT_LINE, PageLine};
pub use line_reading::read_line;
pub use name::Name;
pub use script::{LineEnd, MOST_PAGES, Script};
