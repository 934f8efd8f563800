use crate::term::Term;
use extents::Window;

/// A stencil, and what is found out before its first round.
#[derive(Drop)]
pub struct Plan<'a> {
    pub window: &'a Window,
    pub leaf: usize,
    pub terms: &'a [Term],
    /// How far away each term reads, in rows.
    pub far: [i64; 64],
    pub divisor: i64,
    /// Whether no sum of the terms passes 64 bits.
    pub near: bool,
}
