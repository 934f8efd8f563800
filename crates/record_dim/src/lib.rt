//! What the records of a data set are: named fields of whole-number leaves, nested records and static arrays. Beside them stand the list type
//! and the counter of steps that all crates use.
#![tactic(auto)]

mod checks;
mod copies;
mod dim;
mod fault;
mod leaf_type;
mod lists;
mod name;
mod nodes;
mod path;
mod schema;
mod steps;
mod tables;
mod text;

pub use dim::{Dim, Field, FieldList};
pub use fault::{BadRecord, MakeSchema};
pub use leaf_type::LeafType;
pub use lists::Sequence;
pub use name::{MAX_NAME_BYTES, Name};
pub use path::{Path, PathStep};
pub use schema::Schema;
pub use steps::Steps;
pub use text::Text;
