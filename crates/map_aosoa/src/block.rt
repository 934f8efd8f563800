ghost use Rattle.std.specs.Prelude.{◌≡◌, ◌*◌, ◌%◌, ◌^◌, ◌<◌, ◌≤◌, ◌⊎◌, IfOk, IfErr, IsErrOf};
ghost use Rattle.std.specs.List.{sum};
ghost use Rattle.places.specs.Prelude.{widths_of};
ghost use Rattle.map_aosoa.specs.Aosoa.{LieInBlocks, block_count};

use places::{Cell, MAX_BLOB_BITS, NewMapping};
use std::alloc::Global;

/// Where the lanes of each cell lie, in bits from the block's beginning on, and how many bits the block takes.
#[derive(Drop)]
pub struct Block {
    pub offsets: Vec<u64>,
    pub size: u64,
}

/// The number of blocks that have so many slots. The last may have lanes with no slot.
pub fn count_blocks(slots: u64, lanes: u32) -> u64
    requires { 0 < lanes }
    ensures { result ≡ block_count lanes slots }
{
    slots.div_ceil(u64::from(lanes))
}

/// Lays out one block. `TooBig` comes exactly where it has more bits than all blobs may have.
pub fn lay_out(alloc: Global, cells: &[Cell], lanes: u32) -> Result<Block, NewMapping>
    requires { lanes ≤ 64 }
    ensures stored { IfOk result (λ block. LieInBlocks lanes (widths_of cells.now) block.offsets.items block.size) }
    ensures whole { IfOk result (λ block. block.size % 8 ≡ 0) }
    ensures fits { IfOk result (λ block. block.size ≤ 2 ^ 31) }
    ensures too_big { IsErrOf result NewMapping.TooBig → 2 ^ 31 < lanes * sum (widths_of cells.now) }
    ensures only { IfErr result (λ e. (e ≡ NewMapping.TooBig) ⊎ (e ≡ NewMapping.NoMemory)) }
{
    let mut offsets = Vec::with_capacity(alloc, cells.len())?;
    let mut end = 0u64;
    for cell in cells {
        offsets.push(end)?;
        end += u64::from(lanes) * u64::from(cell.kind.width());
        if end > MAX_BLOB_BITS {
            return Err(NewMapping::TooBig);
        }
    }
    Ok(Block { offsets, size: end })
}
