// Structs of arrays: the arrays of the cells in one blob, packed or aligned, or each in a blob of its own.
#![tactic(auto)]

mod arrays;
mod soa;

pub use soa::Soa;
