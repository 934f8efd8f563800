//! Mappings of bytes: each cell byte-swapped, split into bytes, or stored as another type.
#![tactic(auto)]

mod bytesplit;
mod byteswap;
mod change;
mod full;
mod join;
mod swap;

pub use bytesplit::Bytesplit;
pub use byteswap::Byteswap;
pub use change::Change;
pub use full::is_same_hold;
pub use join::{join_pieces, join_rules};
pub use swap::{swap_pieces, swap_rules};
