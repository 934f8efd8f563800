// Rows one after another whose places lie alike far apart, so that a loop over them asks once.
ghost use Rattle.std.specs.Prelude.{◌<◌};
ghost use Rattle.piece_bits.specs.Spreads.{spread_power};

/// How the places of a stretch lie from the first one.
#[derive(Clone, Copy)]
pub enum Spread {
    /// As many times as far as the second as the row's number says.
    Even,
    /// Evenly in blocks of a power of two of rows, each block so far behind the one before it.
    Blocks { power: u32, block: u64 },
    /// As many times as the binary digits of its number say when they are moved apart, as in Morton order.
    Digits,
}

/// Rows one after another whose places lie alike. The unit of places is that of the short form.
#[derive(Clone, Copy)]
pub struct Stretch {
    /// The place of the first row.
    pub start: u64,
    /// From its place to that of the second.
    pub apart: u64,
    pub spread: Spread,
    pub rows: u64,
    ghost low: { spread_power spread < 64 },
}
