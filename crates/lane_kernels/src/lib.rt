//! Kernels over the leaves of a view: a store in each row, or one number of all rows.
#![tactic(auto)]

mod blocks;
mod fault;
mod kernel;
mod plain;
mod reduce;
mod rows;

pub use fault::KernelFault;
pub use kernel::Kernel;
pub use piece_bits::Compare;
pub use plain::{run_lanes, run_plain};
pub use reduce::{Reduction, reduce_leaf};
