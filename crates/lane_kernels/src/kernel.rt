ghost use Rattle.lane_kernels.specs.Inner.KernelRows.{IsOfNoRow};

use crate::fault::KernelFault;
use piece_bits::Compare;

/// What is done with each row of a view. `x` and `y` are numbers of leaves, whose types have at most 32 bits.
#[derive(Clone, Copy)]
pub enum Kernel {
    /// `a * x + y` becomes `y`. `a` lies from -2^31 to 2^31 - 1.
    Axpy { a: i64, x: usize, y: usize },
    /// `x` becomes the nearest number from `lo` to `hi`, which lie from -2^31 to 2^32 - 1.
    Clamp { x: usize, lo: i64, hi: i64 },
    Sum { x: usize },
    Least { x: usize },
    Greatest { x: usize },
    /// How many values compare so with `c`, which lies from -2^31 to 2^32 - 1.
    CountWhere { x: usize, op: Compare, c: i64 },
}

impl Kernel {
    // What a kernel answers where there is no row.
    pub(crate) fn of_no_row(&self) -> Result<Option<i64>, KernelFault>
        ensures { IsOfNoRow self.now result }
    {
        match self {
            Kernel::Axpy { .. } | Kernel::Clamp { .. } => Ok(None),
            Kernel::Sum { .. } | Kernel::CountWhere { .. } => Ok(Some(0)),
            Kernel::Least { .. } | Kernel::Greatest { .. } => Err(KernelFault::Empty),
        }
    }
}
