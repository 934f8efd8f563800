//! The run of a script that was read: a session does its lines, in the version that its version line says.
#![tactic(auto)]

mod lines;
mod script;
mod version;

pub use script::run_form;
