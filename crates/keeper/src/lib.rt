//! What keeps the items: a finite map from keys to items that may fail, and counts its faults.
#![tactic(auto)]

mod faulty_keeper;
mod keeping;
mod list_keeper;
mod map_keeper;
mod pairs;
mod pairs_due;
mod ran;

pub use faulty_keeper::FaultyKeeper;
pub use keeping::{KeepError, Keeper};
pub use list_keeper::ListKeeper;
pub use map_keeper::{Due, MapKeeper};
pub use ran::Ran;
