ghost use Rattle.std.specs.Prelude.{ℕ, ◌≡◌, ◌<◌, length, not};
ghost use Rattle.std.specs.List.{count_by};
ghost use Rattle.map_split.specs.Sides.{is_one_sided};
ghost use Rattle.map_split.specs.Inner.Seats.{IsSeat};

/// Where a cell of a split stands: its side, and its number there.
#[derive(Clone, Copy)]
pub enum Seat {
    First(usize),
    Rest(usize),
}

/// How many cells go to the first side.
fn count_first(side: &[bool]) -> usize
    ensures { result ≡ count_by (λ s. s) side.now }
{
    side.iter().filter(|s| **s).count()
}

/// How many cells do not.
fn count_rest(side: &[bool]) -> usize
    ensures { result ≡ count_by not side.now }
{
    side.iter().filter(|s| !**s).count()
}

/// Whether no cell, or every cell, goes to the first side.
pub fn is_one_sided(side: &[bool]) -> bool
    ensures { result ≡ is_one_sided side.now }
{
    count_first(side) == 0 || count_rest(side) == 0
}

/// Where a cell stands.
pub(crate) fn seat_of(side: &[bool], cell: usize) -> Seat
    requires { cell < length side.now }
    ensures { IsSeat side.now cell result }
{
    if side[cell] {
        Seat::First(count_first(&side[..cell]))
    } else {
        Seat::Rest(count_rest(&side[..cell]))
    }
}
