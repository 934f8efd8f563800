ghost use Rattle.std.specs.Prelude.{◌<◌};

/// How rows go in groups: where the first number stands, how many rows a group has, how far each lies behind the one before it, and how far
/// each group does.
#[derive(Clone, Copy)]
pub struct Grouped {
    pub blob: usize,
    pub base: u64,
    pub lanes: u64,
    pub lane: u64,
    pub block: u64,
    ghost some: { 0 < lanes },
}
