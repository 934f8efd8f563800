//! Expressions over the leaves of a row: their depth, their binding to a schema, their exact value or first fault, and their values in many
//! rows at once where no part can fail.
#![tactic(auto)]

mod binding;
mod bound;
mod bounds;
mod chain;
mod evaluation;
mod expr;
mod fault;
mod numbers;
mod operators;
mod row;
mod step;

pub use binding::bind;
pub use bound::{Bound, Chain, Link, Links, Operand, Step};
pub use bounds::most;
pub use evaluation::eval;
pub use expr::{BinOp, Expr};
pub use fault::{BindFault, EvalFault};
pub use numbers::{decided, result_of};
pub use row::Row;
pub use step::{apply_step, lone_number};
