//! Copies of tables between views, whatever their layouts are.
#![tactic(auto)]

mod copies;
mod fault;
#[tactic(auto, using(crate::proofs::Auto::steps))]
mod fieldwise;
#[tactic(auto, using(crate::proofs::Auto::steps))]
mod row_runs;
#[tactic(auto, using(crate::proofs::Auto::steps))]
mod runs;
mod ways;

pub use copies::copy;
pub use fault::CopyFault;
pub use fieldwise::copy_self;
