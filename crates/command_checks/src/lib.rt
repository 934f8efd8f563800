//! The tests that refuse a command of a session, one for each cause.
#![tactic(auto)]

mod advices;
mod entries;
mod entry_list;
mod fault;
mod index;
mod kernels;
mod leaves;
mod mapping_entry;
mod mappings;
mod named_entry;
mod names;
mod stencils;
mod tables;
mod terms;
mod windows;

pub use advices::{Question, asked};
pub use entries::{RecordEntry, ViewEntry, ViewList};
pub use entry_list::{EntryList, MappingList, RecordList};
pub use fault::StepFault;
pub use kernels::fit_kernel;
pub use leaves::{bound, leaf_of, leaf_text};
pub use mapping_entry::MappingEntry;
pub use mappings::nameless;
pub use named_entry::NamedEntry;
pub use names::{free_view, known_view, schema_of};
pub use stencils::{FitStencil, fit_stencil};
pub use tables::{MAX_LIVE_BYTES, has_room, live_bytes, made, made_beside, resolved, shaped};
pub use windows::windowed;
