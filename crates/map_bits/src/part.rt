ghost use Rattle.std.specs.Prelude.{◌≡◌, ◌^◌, ◌<◌, ◌≤◌, ◌⊎◌, IfOk, IfErr, IsErrOf};
ghost use Rattle.std.specs.List.{sum};
ghost use Rattle.places.specs.Prelude.{widths_in};
ghost use Rattle.map_bits.specs.Bits.{LieInBits};

use places::{Hold, MAX_BLOB_BITS, NewMapping};
use std::alloc::Global;

/// Where the cells of one slot lie, in bits from the slot's beginning on, and how many bits the slot takes.
#[derive(Drop)]
pub struct Part {
    pub offsets: Vec<u64>,
    pub size: u64,
}

/// Lays out one slot of cells that are stored so. `TooBig` comes exactly where it has more bits than all blobs may have.
pub fn lay_out(alloc: Global, holds: &[Hold]) -> Result<Part, NewMapping>
    ensures stored { IfOk result (λ part. LieInBits (widths_in holds.now) part.offsets.items part.size) }
    ensures fits { IfOk result (λ part. part.size ≤ 2 ^ 31) }
    ensures too_big { IsErrOf result NewMapping.TooBig → 2 ^ 31 < sum (widths_in holds.now) }
    ensures only { IfErr result (λ e. (e ≡ NewMapping.TooBig) ⊎ (e ≡ NewMapping.NoMemory)) }
{
    let mut offsets = Vec::with_capacity(alloc, holds.len())?;
    let mut end = 0u64;
    for hold in holds {
        offsets.push(end)?;
        end += u64::from(hold.width);
        if end > MAX_BLOB_BITS {
            return Err(NewMapping::TooBig);
        }
    }
    Ok(Part { offsets, size: end })
}
