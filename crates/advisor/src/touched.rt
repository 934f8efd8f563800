// How many granules of a mapping's blobs hold a bit of some of its cells.
ghost use Rattle.std.specs.Prelude.{◌≡◌, ◌<◌, ◌≤◌, ◌^◌, ◌==◌, nat_le, All, [], IfOk, length, count_by, sum_by, slice_index_or};
ghost use Rattle.advisor.specs.Imports.{heat_counts, granules_in, HasGranules, blob_lengths, list_any};
ghost use Rattle.advisor.specs.Touched.{holds_cell, touched};
ghost use Rattle.advisor.specs.Inner.Warm.{is_warm, IsWarmed};

use crate::mapped::RuledMap;
use crate::runs::touch_rows;
use instrument::{Heat, HeatFault, MAX_GRANULES};
use map_any::CellMap;
use places::{Mapping, laws_of};
use std::alloc::{AllocError as NoMemory, Global};

/// Whether the blobs of a mapping have at most 2^24 granules together.
pub fn has_few_granules<M: Mapping>(mapping: &M, granule: u32) -> bool
    requires { 1 ≤ granule }
    ensures { result ≡ nat_le (granules_in granule (blob_lengths (M.layout mapping.now))) (2 ^ 24) }
{
    let mut left = MAX_GRANULES;
    for blob in 0..mapping.blob_count() {
        let granules = mapping.blob_bytes(blob).div_ceil(u64::from(granule));
        if granules > left {
            return false;
        }
        left -= granules;
    }
    true
}

/// How many granules of a mapping's blobs hold a bit of these cells in any slot. It takes memory for a number for each granule, if there is
/// a cell.
pub fn touched(
    alloc: Global,
    map: &RuledMap,
    granule: u32,
    cells: &[usize],
) -> Result<u64, NoMemory>
    requires some { 1 ≤ granule }
    requires few { granules_in granule (blob_lengths (⟦<CellMap as Mapping>⟧.layout map.now.mapping)) ≤ 2 ^ 24 }
    requires inside { All (λ cell. cell < length (⟦<CellMap as Mapping>⟧.cell_list map.now.mapping)) cells.now }
    ensures value { IfOk result (λ count. count ≡ touched (λ cell. list_any (λ other. other == cell) cells.now) granule (⟦<CellMap as Mapping>⟧.layout map.now.mapping)) }
    ensures most { IfOk result (λ count. count ≤ 2 ^ 24) }
{
    if cells.is_empty() {
        return Ok(0);
    }
    laws_of(&map.mapping);
    let lengths = blob_lengths(alloc, &map.mapping)?;
    let mut heat = match Heat::new(alloc, granule, lengths.as_slice()) {
        Ok(heat) => heat,
        Err(HeatFault::NoMemory) => return Err(NoMemory),
        Err(HeatFault::TooBig) => unreachable!(),
    };
    for cell in cells {
        touch_cell(map, &mut heat, granule, *cell);
    }
    Ok(warm_granules(&map.mapping, &heat))
}

// The bytes of each blob.
fn blob_lengths<M: Mapping>(alloc: Global, mapping: &M) -> Result<Vec<u64>, NoMemory>
    ensures { IfOk result (λ lengths. lengths.items ≡ blob_lengths (M.layout mapping.now)) }
{
    let mut lengths = Vec::new(alloc);
    for blob in 0..mapping.blob_count() {
        lengths.push(mapping.blob_bytes(blob))?;
    }
    Ok(lengths)
}

// Counts accesses to a cell in each granule that holds a bit of it.
fn touch_cell(map: &RuledMap, heat: &mut Heat, granule: u32, cell: usize)
    requires granule { (heat_counts heat.old).granule ≡ granule }
    requires inside { cell < length (⟦<CellMap as Mapping>⟧.cell_list map.now.mapping) }
    requires granules { HasGranules (⟦<CellMap as Mapping>⟧.layout map.now.mapping) (heat_counts heat.old) }
    ensures warmed { IsWarmed (heat_counts heat.old) (heat_counts heat.new) (holds_cell (⟦<CellMap as Mapping>⟧.layout map.now.mapping) granule cell) }
    ensures granules { HasGranules (⟦<CellMap as Mapping>⟧.layout map.now.mapping) (heat_counts heat.new) }
{
    laws_of(&map.mapping);
    touch_rows(heat, granule, map.rule(cell), &map.extents);
}

// How many granules were accessed.
fn warm_granules<M: Mapping>(mapping: &M, heat: &Heat) -> u64
    requires granules { HasGranules (M.layout mapping.now) (heat_counts heat.now) }
    requires few { granules_in (heat_counts heat.now).granule (blob_lengths (M.layout mapping.now)) ≤ 2 ^ 24 }
    ensures value { result ≡ sum_by (count_by is_warm) (heat_counts heat.now).blobs }
    ensures most { result ≤ 2 ^ 24 }
{
    let mut count = 0;
    for blob in 0..mapping.blob_count() {
        count += warm_in(heat, blob);
    }
    count
}

// How many granules of a blob were.
fn warm_in(heat: &Heat, blob: usize) -> u64
    requires { blob < length (heat_counts heat.now).blobs }
    ensures { result ≡ count_by is_warm (slice_index_or (heat_counts heat.now).blobs blob []) }
{
    let mut count = 0;
    for at in 0..heat.granules(blob) {
        if heat.heat_at(blob, at) != 0 {
            count += 1;
        }
    }
    count
}
