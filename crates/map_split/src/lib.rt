//! Mappings that are split: some cells go to one mapping, the others to another.
#![tactic(auto)]

mod bytes;
mod shift;
mod sides;
mod split;

pub use shift::{shift_blobs, shift_rules};
pub use sides::is_one_sided;
pub use split::Split;
