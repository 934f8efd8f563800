use crate::pass::Pass;

/// What layouts are priced by: granules of so many bytes, and the passes that touch them.
#[derive(Clone, Copy)]
pub struct Price<'a> {
    pub granule: u32,
    pub passes: &'a [Pass],
}
