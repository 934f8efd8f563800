//! Laws of what runs save: a view that is opened of what another saved is the same table, and saves as the same bytes.
#![tactic(auto)]

mod laws;

pub use laws::{opened_saves, runs_reopen, runs_savable, saved_opens};
