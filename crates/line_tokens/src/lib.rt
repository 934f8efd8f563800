//! The tokens of one line of a script: words, numbers, strings and signs, each with its place.
#![tactic(auto)]

mod sign;
mod spots;
mod token;

pub use sign::Sign;
pub use spots::{Spot, SpotList, spots_of};
pub use token::{MAX_BRACKETS, MAX_STRING_BYTES, Next, TokenKind, next_token};
