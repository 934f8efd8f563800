//! The extents of an array, its rows and its indices.
//!
//! Row `r` of an array is the place, counted from 0, of an index in the lexicographic list of all
//! indices. Nothing here takes memory.
#![tactic(auto)]

mod order;
#[tactic(auto, using(crate::proofs::Auto::steps))]
mod rows;
#[tactic(auto, using(crate::proofs::Auto::steps))]
mod window;
#[tactic(auto, using(crate::proofs::Auto::steps))]
mod words;

pub use order::Order;
pub use rows::Extents;
pub use window::{Span, Window};
pub use words::{BadExtents, ExtentWord, Shape};
