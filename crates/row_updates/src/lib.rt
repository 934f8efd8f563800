//! Updates of the rows of a view: new values from the values of each row, where a filter is not 0.
#![tactic(auto)]

#[tactic(auto, using(crate::proofs::Auto::steps))]
mod count;
mod fault;
#[tactic(auto, using(crate::proofs::Auto::steps))]
mod index;
mod limits;
#[tactic(auto, using(crate::proofs::Auto::steps))]
mod run_updates;
#[tactic(auto, using(crate::proofs::Auto::steps))]
mod runs;
#[tactic(auto, using(crate::proofs::Auto::steps))]
mod update;
#[tactic(auto, using(crate::proofs::Auto::steps))]
mod value;

pub use count::count_where;
pub use fault::{UpdateFault, UpdateKind};
pub use update::{Assign, try_row, update_rows};
pub use value::value_on;
