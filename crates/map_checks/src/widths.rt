ghost use Rattle.std.specs.Prelude.{◌≡◌, ℕ, IfOk};
ghost use Rattle.map_checks.specs.Imports.{schema_fields, Fields};
ghost use Rattle.map_checks.specs.Widths.{LastCounts, width_at, cell_widths, has_cell, has_empty};

use crate::sides::is_under;
use map_expr::{FieldWidth, WidthList};
use places::CellList;
use record_dim::Schema;
use std::alloc::{AllocError as NoMemory, Global};

// The most bits of a leaf: what the last entry says whose path it is under, and `width` where it is under none.
pub(crate) fn width_at(schema: &Schema, width: u32, entries: &WidthList, leaf: usize) -> u32
    ensures { result ≡ width_at (schema_fields schema.now) width entries.now leaf }
{
    let mut found = width;
    for entry in entries.as_slice() {
        if is_under(schema, &entry.path, leaf) {
            found = entry.width;
        }
    }
    found
}

/// The most bits of each cell of a bit mapping: those that the last entry says whose path its leaf is under, and `width` where it is
/// under none.
pub fn cell_widths(
    alloc: Global,
    schema: &Schema,
    cells: &CellList,
    width: u32,
    entries: &WidthList,
) -> Result<Vec<u32>, NoMemory>
    ensures { IfOk result (λ widths. widths.items ≡ cell_widths (schema_fields schema.now) width entries.now cells.now) }
{
    let mut widths = Vec::with_capacity(alloc, cells.len())?;
    for cell in cells.as_slice() {
        widths.push(width_at(schema, width, entries, cell.leaf))?;
    }
    Ok(widths)
}

/// Of several entries that a leaf is under the last one says its width. It does nothing: its contract is the law.
pub fn width_law()
    ensures { (fields : Fields) (width leaf : ℕ) → LastCounts fields width leaf }
{}

// Whether some entry has none of the cells under its path.
pub(crate) fn has_empty(schema: &Schema, cells: &CellList, entries: &WidthList) -> bool
    ensures { result ≡ has_empty (schema_fields schema.now) cells.now entries.now }
{
    for entry in entries.as_slice() {
        if !has_cell(schema, cells, entry) {
            return true;
        }
    }
    false
}

fn has_cell(schema: &Schema, cells: &CellList, entry: &FieldWidth) -> bool
    ensures { result ≡ has_cell (schema_fields schema.now) cells.now entry.now }
{
    for cell in cells.as_slice() {
        if is_under(schema, &entry.path, cell.leaf) {
            return true;
        }
    }
    false
}
