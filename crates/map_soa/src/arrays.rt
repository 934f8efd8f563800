ghost use Rattle.std.specs.Prelude.{ℕ, ◌≡◌, ◌+◌, ◌*◌, ◌^◌, ◌<◌, ◌≤◌, ◌⊎◌, IfOk, IfErr, IsErrOf, length, sum_by};
ghost use Rattle.places.specs.Prelude.{widths_of, soa_layout};
ghost use Rattle.map_soa.specs.Soa.{LieInArrays, alignment, in_blob};

use places::{Cell, MAX_BLOB_BITS, NewMapping, SoaForm, up};
use std::alloc::Global;

/// Where the array of each cell begins, in bits from its blob's beginning on, and how many bits all blobs have.
#[derive(Drop)]
pub struct Arrays {
    pub offsets: Vec<u64>,
    pub size: u64,
}

/// What the array of a cell of this width is aligned to, in bits.
fn align_of(form: SoaForm, width: u32) -> u64
    ensures { result ≡ alignment form width }
{
    match form {
        SoaForm::Single | SoaForm::Multi => 1,
        SoaForm::Aligned => u64::from(width),
    }
}

/// Where an array begins in its blob, if it begins at `begin` with all arrays behind one another.
fn offset_of(form: SoaForm, begin: u64) -> u64
    ensures { result ≡ in_blob form begin }
{
    match form {
        SoaForm::Single | SoaForm::Aligned => begin,
        SoaForm::Multi => 0,
    }
}

/// Lays out the arrays of all cells. `TooBig` comes exactly where they have more bits than all blobs may have.
pub fn lay_out(
    alloc: Global,
    cells: &[Cell],
    slots: u64,
    form: SoaForm,
) -> Result<Arrays, NewMapping>
    requires few { slots ≤ 2 ^ 24 }
    ensures stored { IfOk result (λ arrays. LieInArrays form slots (widths_of cells.now) arrays.offsets.items arrays.size) }
    ensures fits { IfOk result (λ arrays. arrays.size ≤ 2 ^ 31) }
    ensures too_big { IsErrOf result NewMapping.TooBig → 2 ^ 31 < sum_by length (soa_layout form slots (widths_of cells.now)) }
    ensures only { IfErr result (λ e. (e ≡ NewMapping.TooBig) ⊎ (e ≡ NewMapping.NoMemory)) }
{
    let mut offsets = Vec::with_capacity(alloc, cells.len())?;
    let mut end = 0u64;
    for cell in cells {
        let width = cell.kind.width();
        let begin = up(end, align_of(form, width));
        offsets.push(offset_of(form, begin))?;
        end = begin + slots * u64::from(width);
        if end > MAX_BLOB_BITS {
            return Err(NewMapping::TooBig);
        }
    }
    Ok(Arrays { offsets, size: end })
}
