use expr_lang::EvalFault;
use lane_kernels::KernelFault;
use layout_copy::CopyFault;
use std::alloc::AllocError;
use thiserror::Error;
use views::{MakeView, StoreFault};

/// Why a measurement has no checksum.
#[derive(Clone, Copy, Debug, PartialEq, Eq, Error)]
pub enum BenchFault {
    /// They are words of no work.
    #[error("the words name no work")]
    Words,
    /// An expression has no value on some row, or the sum is too great.
    #[error("an expression has no value")]
    Eval(#[from] EvalFault),
    /// An expression names what is not there.
    #[error("an expression names no leaf")]
    Unknown,
    /// A record is refused.
    #[error("a record is refused")]
    Record,
    /// There is no view of so many rows.
    #[error("there is no such view")]
    View(#[from] MakeView),
    /// A value was not stored.
    #[error("a value was not stored")]
    Store(#[from] StoreFault),
    /// A table was not copied.
    #[error("a table was not copied")]
    Copy(#[from] CopyFault),
    /// A kernel stopped at a row.
    #[error("a kernel stopped")]
    Kernel(#[from] KernelFault),
    #[error("out of memory")]
    NoMemory(#[from] AllocError),
}
