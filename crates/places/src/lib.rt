//! What lies where: layouts as lists of bits, the contract of a mapping, and rules that tell where a piece of a cell lies by the slot alone.
#![tactic(auto)]

mod forms;
mod laws;
mod limits;
mod mapping;
mod multiple;
mod piece;
mod rule;
mod rule_pieces;
mod ruled;

pub use forms::{AosForm, SoaForm};
pub use laws::{laws_of, pieces_of, writes_keep_others, writes_read_back};
pub use limits::{MAX_BLOB_BITS, MAX_BLOB_BYTES, MAX_LANES, MAX_SLOTS, MAX_WIDTH};
pub use mapping::{Mapping, NewMapping};
pub use multiple::up;
pub use piece::{Cell, CellList, Hold, Piece, Pieces, Run, RunList, RunOwner};
pub use rule::{PieceRule, PieceRules};
pub use rule_pieces::pieces_in;
pub use ruled::Ruled;
