//! The cheapest layout of some for stated passes over a view.
#![tactic(auto)]

mod advice;
#[tactic(auto, using(crate::proofs::Auto::steps))]
mod adviser;
#[tactic(auto, using(crate::proofs::Auto::steps))]
mod candidate;
mod choice;
mod costs;
#[tactic(auto, using(crate::proofs::Auto::steps))]
mod curve;
#[tactic(auto, using(crate::proofs::Auto::steps))]
mod laws;
#[tactic(auto, using(crate::proofs::Auto::steps))]
mod listed;
#[tactic(auto, using(crate::proofs::Auto::steps))]
mod mapped;
mod pass;
mod price;
#[tactic(auto, using(crate::proofs::Auto::steps))]
mod runs;
#[tactic(auto, using(crate::proofs::Auto::steps))]
mod sides;
#[tactic(auto, using(crate::proofs::Auto::steps))]
mod splits;
#[tactic(auto, using(crate::proofs::Auto::steps))]
mod suits;
#[tactic(auto, using(crate::proofs::Auto::steps))]
mod touched;
mod trials;

pub use advice::{Advice, AdviseFault, Best, CostList};
pub use adviser::advise;
pub use laws::touched_laws;
pub use map_expr::MapExprList;
pub use pass::{LeafList, Pass, PassList};
