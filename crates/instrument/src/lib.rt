//! What is counted of the accesses to a view, and the texts of counts and of what lies in memory.
#![tactic(auto)]

mod bytes;
mod counts;
mod counts_text;
mod granules;
mod heat;
mod heat_text;
mod runs_text;

pub use bytes::write_bytes;
pub use counts::Counts;
pub use counts_text::write_counts;
pub use granules::{MAX_GRANULES, are_few};
pub use heat::{Heat, HeatFault};
pub use heat_text::write_heat;
pub use runs_text::write_runs;
