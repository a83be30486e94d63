//! A farm: several state servers, each of which has the sessions whose identifiers name it, and a
//! page script whose pages visit them.
#![tactic(auto)]

mod farm_script;
mod server_scripts;

pub use farm_script::FarmScript;
