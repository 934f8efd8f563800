//! Mapping expressions: how the records of an array are to lie in memory, as a script writes it.
#![tactic(auto)]

mod check;
mod copies;
mod expr;
mod same;
mod widths;

pub use check::BadMapping;
pub use expr::{MapExpr, MapExprList};
pub use widths::{FieldWidth, WidthList};
