//! Laws of whole runs: scripts that differ in how their tables lie alone have the same results, and what is shown of accesses is what was made.
#![tactic(auto)]

mod laws;

pub use laws::{same_results, shown_entries};
