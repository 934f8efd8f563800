use record_dim::Path;

/// What stands behind the name of a fault.
#[derive(Clone, Copy)]
pub enum Detail<'a> {
    /// Nothing.
    Nothing,
    /// This text.
    Text(&'a str),
    /// The decimal text of a number.
    Count(u64),
    /// The number of a row, and the path text of a leaf.
    Place { row: u64, leaf: &'a str },
    /// The number of a blob, and that of a byte in it.
    Byte { blob: u64, byte: u64 },
    /// The text of a path.
    Path(&'a Path),
}

/// The name of a fault with the words in front of its detail, and the detail.
#[derive(Clone, Copy)]
pub struct Words<'a> {
    pub name: &'static str,
    pub detail: Detail<'a>,
}
