//! The numbers of a leaf as they lie in blobs under any mapping: one entry, its bits and its value; what a store of either mode keeps of a
//! number; short forms of rules; many rows at once, and sixteen numbers side by side.
#![tactic(auto)]

mod bytes;
mod compare;
mod entry;
mod far;
#[tactic(auto, using(crate::proofs::Auto::steps))]
mod field;
mod join;
#[tactic(auto, using(crate::proofs::Auto::steps))]
mod laws;
mod low;
#[tactic(auto, using(crate::proofs::Auto::steps))]
mod low_numbers;
mod mode;
mod path;
#[tactic(auto, using(crate::proofs::Auto::steps))]
mod pieces;
#[tactic(auto, using(crate::proofs::Auto::steps))]
mod plain;
#[tactic(auto, using(crate::proofs::Auto::steps))]
mod put;
#[tactic(auto, using(crate::proofs::Auto::steps))]
mod read;
#[tactic(auto, using(crate::proofs::Auto::steps))]
mod scattered;
mod short;
mod shorten;
mod stand;
#[tactic(auto, using(crate::proofs::Auto::steps))]
mod start;
mod stretch;
#[tactic(auto, using(crate::proofs::Auto::steps))]
mod stretches;
#[tactic(auto, using(crate::proofs::Auto::steps))]
mod told_tables;
#[tactic(auto, using(crate::proofs::Auto::steps))]
mod unit;
#[tactic(auto, using(crate::proofs::Auto::steps))]
mod value;
mod walk;
mod wide;
mod wide_rules;
#[tactic(auto, using(crate::proofs::Auto::steps))]
mod within;
#[tactic(auto, using(crate::proofs::Auto::steps))]
mod word;
mod words;

pub use compare::Compare;
pub use entry::{read_entry, read_piece, write_entry, write_piece};
pub use far::folded;
pub use field::{Field, field_at, put_field_at};
pub use laws::kept_laws;
pub use low::{declared, held, kept};
pub use low_numbers::{low_bits, low_of};
pub use mode::StoreMode;
pub use pieces::{read_pieces, write_pieces};
pub use plain::{clamp, count, greatest, least, sum, times_plus};
pub use put::put_stretch;
pub use read::read_stretch;
pub use scattered::{read_scattered, write_scattered};
pub use short::ShortRule;
pub use stretch::{Spread, Stretch};
pub use told_tables::table_laws;
pub use value::{decode, encode};
pub use walk::Walk;
pub use wide::{field_wide, turned_wide, whole_wide};
pub use wide_rules::Wide;
pub use within::are_within;
pub use word::{Word, read_word, write_word};
