//! Actors that load and store single bytes of a view in the order of a schedule: what they do, and that no schedule matters.
#![tactic(auto)]

mod laws;
mod place;

pub use laws::schedules_agree;
pub use place::Place;
