// The binary digits of a component, moved apart by masks and shifts.
ghost use Rattle.std.specs.Prelude.{◌≡◌, ◌/◌, ◌^◌, ◌<◌, ◌≤◌, [], ◌∷◌};
ghost use Rattle.linearize.specs.Slots.{interleaved};
ghost use Rattle.linearize.specs.Inner.Spreads.{IsSpread};

/// The digits of a component, `rank` places apart.
pub fn spread(component: u64, rank: usize) -> u64
    requires ranked { (0 < rank) × (rank ≤ 4) }
    requires narrow { component < 2 ^ (24 / rank) }
    ensures digits { IsSpread rank component result }
    ensures few { result < 2 ^ 24 }
{
    match rank {
        1 => component,
        2 => spread_by_two(component),
        3 => spread_by_three(component),
        _ => spread_by_four(component),
    }
}

/// The digits of a line and a column in turn, the column's lowest first. Both move apart in one word, the line in its upper half.
#[inline(always)]
pub fn in_turn(line: u64, column: u64) -> u64
    requires line { line < 2 ^ 12 }
    requires column { column < 2 ^ 12 }
    ensures { result ≡ interleaved (line ∷ column ∷ []) }
{
    let both = (line << 32) + column;
    let eights = (both | (both << 8)) & 0x000f_00ff_000f_00ff;
    let fours = (eights | (eights << 4)) & 0x000f_0f0f_000f_0f0f;
    let twos = (fours | (fours << 2)) & 0x0033_3333_0033_3333;
    let ones = (twos | (twos << 1)) & 0x0055_5555_0055_5555;
    (ones | (ones >> 31)) & 0x00ff_ffff
}

fn spread_by_two(component: u64) -> u64
    requires { component < 2 ^ 12 }
    ensures digits { IsSpread 2 component result }
    ensures few { result < 2 ^ 24 }
{
    let eights = (component | (component << 8)) & 0x0f_00ff;
    let fours = (eights | (eights << 4)) & 0x0f_0f0f;
    let twos = (fours | (fours << 2)) & 0x33_3333;
    (twos | (twos << 1)) & 0x55_5555
}

fn spread_by_three(component: u64) -> u64
    requires { component < 2 ^ 8 }
    ensures digits { IsSpread 3 component result }
    ensures few { result < 2 ^ 24 }
{
    let fours = (component | (component << 8)) & 0x00_f00f;
    let twos = (fours | (fours << 4)) & 0x0c_30c3;
    (twos | (twos << 2)) & 0x24_9249
}

fn spread_by_four(component: u64) -> u64
    requires { component < 2 ^ 6 }
    ensures digits { IsSpread 4 component result }
    ensures few { result < 2 ^ 24 }
{
    let fours = (component | (component << 12)) & 0x03_000f;
    let twos = (fours | (fours << 6)) & 0x03_0303;
    (twos | (twos << 3)) & 0x11_1111
}
