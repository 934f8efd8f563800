//! Where the numbers of a leaf of a view lie, in few numbers: for callers who read them with no call.
#![tactic(auto)]

mod find;
mod form;
mod grouped;
#[tactic(auto, using(crate::proofs::Auto::steps))]
mod groups;
mod search;
mod sought;
mod spot;
mod told;

pub use find::places_of;
pub use told::Places;
