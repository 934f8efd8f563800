use crate::fault::BenchFault;

/// The number that a text is.
pub fn count_in(text: &str) -> Result<u32, BenchFault> {
    text.parse().ok().ok_or(BenchFault::Words)
}
