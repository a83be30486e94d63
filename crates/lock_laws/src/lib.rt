//! What locks give in every legal history.
#![tactic(auto)]

mod laws;

pub use laws::{
    acts_only_in_force, faults_are_counted, in_force_is_done, lock_in_the_way_is_in_force,
    locks_hold, no_update_is_lost, nobody_else,
};
