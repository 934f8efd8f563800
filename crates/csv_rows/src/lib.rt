//! Datasets: the tables that they hold, and the text of a table.
#![tactic(auto)]

mod columns;
#[tactic(auto, using(crate::proofs::Auto::steps))]
mod copies;
#[tactic(auto, using(crate::proofs::Auto::steps))]
mod count;
mod fault;
#[tactic(auto, using(crate::proofs::Auto::steps))]
mod laws;
#[tactic(auto, using(crate::proofs::Auto::steps))]
mod line;
#[tactic(auto, using(crate::proofs::Auto::steps))]
mod lines;
#[tactic(auto, using(crate::proofs::Auto::steps))]
mod load;
mod number;
#[tactic(auto, using(crate::proofs::Auto::steps))]
mod print;
mod reads;
#[tactic(auto, using(crate::proofs::Auto::steps))]
mod rows;

pub use count::count_rows;
pub use fault::RowFault;
pub use laws::printed_loads;
pub use load::load_rows;
pub use print::{print_rows, put_names, put_row};
