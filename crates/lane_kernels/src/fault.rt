ghost use Rattle.std.specs.Prelude.{◌≡◌};
ghost use Rattle.lane_kernels.specs.Kernels.{fault_named};

use thiserror::Error;
use views::StoreFault;

/// Why a kernel ends. The fault is the first one, in the order of rows.
#[derive(Clone, Copy, Debug, PartialEq, Eq, Error)]
pub enum KernelFault {
    /// No row has a least or a greatest value.
    #[error("Empty")]
    Empty,
    /// The value lies outside of the declared range of its leaf, and the view is strict.
    #[error("Range record {row} leaf {leaf}")]
    Range { row: u64, leaf: usize },
    /// The value lies in the declared range and not in that of how the leaf is stored, and the view is strict.
    #[error("Narrow record {row} leaf {leaf}")]
    Narrow { row: u64, leaf: usize },
}

impl KernelFault {
    /// The fault of a store in a row.
    pub(crate) fn of(row: u64, leaf: usize, fault: StoreFault) -> KernelFault
        ensures { result ≡ fault_named row leaf fault }
    {
        match fault {
            StoreFault::Range => KernelFault::Range { row, leaf },
            StoreFault::Narrow => KernelFault::Narrow { row, leaf },
        }
    }
}
