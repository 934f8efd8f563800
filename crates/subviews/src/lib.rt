//! Windows of a view, used as views of their own, and stencils over them.
#![tactic(auto)]

mod far;
mod fault;
mod limits;
mod plan;
mod print;
mod reach;
mod rounds;
mod runs;
mod sub_view;
mod sums;
mod term;

pub use fault::StencilFault;
pub use print::print_window;
pub use reach::{is_divisor, is_weight, reaches};
pub use rounds::{buffer_for, stencil};
pub use sub_view::SubView;
pub use term::Term;
