//! The lines of the script language in both of its versions, read from their texts and written as them, and the line that says
//! a script's version.
#![tactic(auto)]

mod bodies;
mod depth;
mod fault;
mod kernels;
mod later;
#[tactic(auto, using(crate::proofs::Auto::steps))]
mod line;
#[tactic(auto, using(crate::proofs::Auto::steps))]
mod token_list;
mod updates;
#[tactic(auto, using(crate::proofs::Auto::steps))]
mod version;

pub use fault::LineFault;
pub use line::{MAX_LINE_BYTES, line_law, one_line_law, parse_line};
pub use line_grammar::{
    ExtentWords, FileName, IndexWords, KernelText, Line, ReduceKind, SetList, SetText, Version,
};
pub use line_writer::write_line;
pub use version::{is_blank, version_of};
