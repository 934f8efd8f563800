//! A session: what a script has named so far, and what each line does to it.
#![tactic(auto)]

mod copy;
mod define;
mod drop;
mod files;
mod load;
mod open;
mod relayout;
mod session;
mod view;
mod work;

pub use actors::{Assign, UpdateFault, UpdateKind, update_rows};
pub use command_checks::{
    MappingEntry, MappingList, RecordEntry, RecordList, StepFault, ViewEntry, ViewList,
};
pub use session::Session;
pub use worlds::{
    BadActors, BadAdvice, BadFile, BadKernel, BadStencil, CommandFault, UnknownName, write_fault,
};
