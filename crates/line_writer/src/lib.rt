//! The canonical text of a line: its tokens with exactly one space between each two.
#![tactic(auto)]

mod commands;
mod later;
mod laws;
mod line;
mod mapping;
mod parts;
mod record;
mod tokens;
mod value;
mod widths;

pub use laws::canonical_law;
pub use line::write_line;
