// How many rows of a view go together.
ghost use Rattle.std.specs.Prelude.{◌≡◌, ◌+◌, ◌<◌, ◌≤◌, ◌^◌};
ghost use Rattle.lane_kernels.specs.Inner.Blocks.{step_of};

use views::RUN;

/// How many rows go together from this one on: where nothing counts accesses as many as may, and else a block, or one of the rest.
pub fn step_at(uncounted: bool, lanes: usize, count: u64, row: u64) -> usize
    requires few { lanes ≤ 16 }
    requires inside { row < count }
    requires small { count ≤ 2 ^ 24 }
    ensures { result ≡ step_of uncounted lanes count row }
{
    let left = (count - row) as usize;
    if uncounted {
        left.min(RUN)
    } else if lanes <= left {
        lanes
    } else {
        1
    }
}
