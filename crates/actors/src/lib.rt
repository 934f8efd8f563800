//! Updates whose rows are split among actors, which load and store single bytes in the order of a schedule. No thread runs.
#![tactic(auto)]

#[tactic(auto, using(crate::proofs::Auto::steps))]
mod actor;
mod back;
#[tactic(auto, using(crate::proofs::Auto::steps))]
mod cuts;
mod fault;
#[tactic(auto, using(crate::proofs::Auto::steps))]
mod memory;
mod noted;
#[tactic(auto, using(crate::proofs::Auto::steps))]
mod plan;
#[tactic(auto, using(crate::proofs::Auto::steps))]
mod run;
mod step;
mod team;

pub use cuts::{actor_of, check_cuts, is_shared};
pub use fault::{ActorFault, CutFault};
pub use row_updates::{Assign, UpdateFault, UpdateKind, update_rows};
pub use run::ActorRun;
