// A table of numbers that lies in blobs as a mapping expression says, and nowhere else.
#![tactic(auto)]

#[tactic(auto, using(crate::proofs::Auto::steps))]
mod access;
mod fault;
#[tactic(auto, using(crate::proofs::Auto::steps))]
mod fresh;
mod laws;
mod moves;
#[tactic(auto, using(crate::proofs::Auto::steps))]
mod pieces;
mod row;
#[tactic(auto, using(crate::proofs::Auto::steps))]
mod rows;
#[tactic(auto, using(crate::proofs::Auto::steps))]
mod runs;
#[tactic(auto, using(crate::proofs::Auto::steps))]
mod size;
mod store;
#[tactic(auto, using(crate::proofs::Auto::steps))]
mod view;

pub use fault::{LaneFault, MakeView, StoreFault};
pub use laws::{counts_are_entries, laws_of_table};
pub use piece_bits::StoreMode;
pub use row::RowRef;
pub use runs::{RUN, raised, read_rows};
pub use size::bytes_for;
pub use view::{BlobList, View};
