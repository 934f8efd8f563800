// Arrays of structs: slot after slot, packed, aligned, or aligned with the least padding.
#![tactic(auto)]

mod aos;
mod part;

pub use aos::Aos;
