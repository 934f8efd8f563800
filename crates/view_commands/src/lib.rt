//! Commands on one view, as scripts and callers from C give them: what each does to it, and what it writes or gives.
#![tactic(auto)]

mod advise;
mod assign;
mod by_actors;
mod change;
mod faults;
mod kernel;
mod reduce;
mod save;
mod show;
mod stencil;
mod update;
mod window;
mod work;
mod written;

pub use advise::Advise;
pub use assign::Assign;
pub use by_actors::UpdateByActors;
pub use change::{Change, ChangeFault, in_words};
pub use faults::{kernel_fault, store_fault};
pub use kernel::RunKernel;
pub use reduce::{Count, Reduce};
pub use save::Save;
pub use show::{Bytes, Counts, Heat, Layout, Print};
pub use stencil::RunStencil;
pub use update::Update;
pub use window::PrintWindow;
pub use work::Work;
pub use written::Written;
