use record_dim::Sequence;

/// Numbers of leaves.
pub type LeafList = Sequence<usize>;

/// A pass over all rows that reads some leaves in each, and how often it is made. A leaf that stands twice is read once.
#[derive(Drop)]
pub struct Pass {
    pub leaves: LeafList,
    pub times: u32,
}

/// The passes, in the order of the text.
pub type PassList = Sequence<Pass>;
