//! Readers of the phrases that the lines of a script are made of. Each takes the tokens of its phrase from the front, and gives
//! the value of the phrase.
#![tactic(auto)]

mod brackets;
mod constant;
mod exprs;
mod fault;
mod fields;
mod lists;
mod maps;
mod passes;
mod path;
mod tokens;
mod widths;
mod windows;

pub use brackets::{read_cuts, read_extents, read_fixed_extents, read_index};
pub use constant::read_const;
pub use exprs::read_expr;
pub use fault::ReadError;
pub use fields::read_fields;
pub use maps::{read_map, read_maps};
pub use passes::read_passes;
pub use path::read_path;
pub use tokens::Tokens;
pub use windows::{read_terms, read_window};
