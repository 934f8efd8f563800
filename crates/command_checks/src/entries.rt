use record_dim::{Name, Schema};
use views::View;

/// A record and its name.
#[derive(Drop)]
pub struct RecordEntry {
    pub name: Name,
    pub schema: Schema,
}

/// A view and its name.
#[derive(Drop)]
pub struct ViewEntry {
    pub name: Name,
    pub view: View,
}

/// The live views of a session, in the order in which they were named.
pub type ViewList = Vec<ViewEntry>;
