ghost use Rattle.std.specs.Prelude.{ℕ, ◌≡◌, ◌+◌, ◌*◌, ◌^◌, ◌<◌, ◌≤◌, ◌⊎◌, ◌++◌, ◌==◌, IfOk, IfErr, OnOk, IsErrOf, filter, length};
ghost use Rattle.places.specs.Prelude.{cells_of, falling, widths_of};
ghost use Rattle.map_aos.specs.Aos.{LieInParts, alignment, order_of, part_of};

use places::{AosForm, Cell, MAX_BLOB_BITS, NewMapping, up};
use std::alloc::{AllocError as NoMemory, Global};

/// Where the cells of one slot lie, in bits from the slot's beginning on, and how many bits the slot takes.
#[derive(Drop)]
pub struct Part {
    pub offsets: Vec<u64>,
    pub size: u64,
}

/// The cells with their widths in bits.
fn numbered(alloc: Global, cells: &[Cell]) -> Result<Vec<(usize, u32)>, NoMemory>
    ensures { IfOk result (λ order. order.items ≡ cells_of (widths_of cells.now)) }
{
    let mut order = Vec::with_capacity(alloc, cells.len())?;
    for (number, cell) in cells.iter().enumerate() {
        order.push((number, cell.kind.width()))?;
    }
    Ok(order)
}

/// Puts the cells of one width behind `order`.
fn push_width(
    order: &mut Vec<(usize, u32)>,
    cells: &[(usize, u32)],
    width: u32,
) -> Result<(), NoMemory>
    ensures { OnOk result (order.new.items ≡ order.old.items ++ filter (λ cell. cell.1 == width) cells.now) }
{
    for &cell in cells {
        if cell.1 == width {
            order.push(cell)?;
        }
    }
    Ok(())
}

/// The cells by falling width, ties in their order.
fn by_width(alloc: Global, cells: &[(usize, u32)]) -> Result<Vec<(usize, u32)>, NoMemory>
    ensures { IfOk result (λ order. order.items ≡ falling cells.now) }
{
    let mut order = Vec::with_capacity(alloc, cells.len())?;
    push_width(&mut order, cells, 64)?;
    push_width(&mut order, cells, 32)?;
    push_width(&mut order, cells, 16)?;
    push_width(&mut order, cells, 8)?;
    Ok(order)
}

/// The cells with their widths, in the order in which they lie.
fn in_order(alloc: Global, cells: &[Cell], form: AosForm) -> Result<Vec<(usize, u32)>, NoMemory>
    ensures { IfOk result (λ order. order.items ≡ order_of form (cells_of (widths_of cells.now))) }
{
    let all = numbered(alloc, cells)?;
    match form {
        AosForm::Packed | AosForm::Aligned => Ok(all),
        AosForm::Min => by_width(alloc, &all),
    }
}

/// What a cell of this width is aligned to, in bits.
fn align_of(form: AosForm, width: u32) -> u64
    ensures { result ≡ alignment form width }
{
    match form {
        AosForm::Packed => 1,
        AosForm::Aligned | AosForm::Min => u64::from(width),
    }
}

/// Lays out the part of one slot. `TooBig` comes exactly where it has more bits than all blobs may have.
pub fn lay_out(alloc: Global, cells: &[Cell], form: AosForm) -> Result<Part, NewMapping>
    ensures stored { IfOk result (λ part. LieInParts form (widths_of cells.now) part.offsets.items part.size) }
    ensures fits { IfOk result (λ part. part.size ≤ 2 ^ 31) }
    ensures too_big { IsErrOf result NewMapping.TooBig → (slot : ℕ) → 2 ^ 31 < length (part_of form (widths_of cells.now) slot) }
    ensures only { IfErr result (λ e. (e ≡ NewMapping.TooBig) ⊎ (e ≡ NewMapping.NoMemory)) }
{
    let order = in_order(alloc, cells, form)?;
    let mut offsets = vec![in alloc; 0u64; cells.len()]?;
    let mut end = 0u64;
    let mut widest = 1u64;
    for &(cell, width) in &order {
        let align = align_of(form, width);
        let offset = up(end, align);
        offsets[cell] = offset;
        widest = widest.max(align);
        end = offset + u64::from(width);
        if end > MAX_BLOB_BITS {
            return Err(NewMapping::TooBig);
        }
    }
    let size = up(end, widest);
    if size > MAX_BLOB_BITS {
        return Err(NewMapping::TooBig);
    }
    Ok(Part { offsets, size })
}
