//! Where an actor stands in its rows, and the next byte that it touches.
#![tactic(auto)]

mod heads;
mod next;
mod rows;
mod tasks;

pub use heads::{behind, leaf_byte};
pub use next::next_byte;
pub use rows::{AskingRows, Asks, NextByte, next_in_rows};
pub use tasks::{next_in_row, task_byte};
