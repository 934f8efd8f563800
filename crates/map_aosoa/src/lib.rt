// Arrays of structs of arrays: block after block, and in a block the lanes of each cell behind one another.
#![tactic(auto)]

mod aosoa;
mod block;

pub use aosoa::Aosoa;
