use thiserror::Error;
use views::StoreFault;

/// Why a stencil ends: the first row of the view whose value does not fit.
#[derive(Clone, Copy, Debug, PartialEq, Eq, Error)]
#[error("{fault} record {row}")]
pub struct StencilFault {
    pub row: u64,
    pub fault: StoreFault,
}
