// The mapping expressions of the forms.
ghost use Rattle.std.specs.Prelude.{IfOk, IsTrue};
ghost use Rattle.record_dim.specs.Prelude.{is_name};
ghost use Rattle.map_expr.specs.Terms.{term_of};
ghost use Rattle.map_checks.specs.Prelude.{IsBuiltTerm};

use crate::fault::BenchFault;
use extents::Order;
use map_expr::{FieldWidth, MapExpr, WidthList};
use places::{AosForm, SoaForm};
use record_dim::{Name, Path};
use std::alloc::{AllocError as NoMemory, Global};

/// The expression of the form of this name: how the table lies in memory, and in which order its slots follow the rows.
pub fn expr_of(alloc: Global, name: &str) -> Result<MapExpr, BenchFault>
    ensures built { IfOk result (λ expr. IsBuiltTerm (term_of expr)) }
{
    match name {
        // Packed records.
        "aos" => Ok(packed(Order::Row)),
        // An array for each leaf, each aligned, in one blob or each in a blob of its own.
        "soa" => Ok(arrays(SoaForm::Aligned, Order::Row)),
        "soa_multi" => Ok(arrays(SoaForm::Multi, Order::Row)),
        // Blocks of 8 rows, in each block 8 values of each leaf.
        "aosoa" => Ok(blocks(Order::Row)),
        // The same by columns. Over one extent both orders have the same places.
        "aos_col" => Ok(packed(Order::Col)),
        "soa_col" => Ok(arrays(SoaForm::Aligned, Order::Col)),
        "aosoa_col" => Ok(blocks(Order::Col)),
        // Packed records, each leaf in at most so many bits.
        "bitaos_9" => Ok(bit_records(9, WidthList::new(alloc))),
        "bitaos_23" => Ok(bit_records(23, WidthList::new(alloc))),
        "bitaos_57" => Ok(bit_records(57, WidthList::new(alloc))),
        // A blob for each leaf, each in at most so many bits.
        "bitsoa_9" => Ok(bit_arrays(9, WidthList::new(alloc))),
        "bitsoa_23" => Ok(bit_arrays(23, WidthList::new(alloc))),
        "bitsoa_57" => Ok(bit_arrays(57, WidthList::new(alloc))),
        // Packed records, and a blob for each leaf, each leaf in bits of its own: 8, 11, 23 and 57.
        "bitaos_mixed" => Ok(bit_records(9, mixed_widths(alloc)?)),
        "bitsoa_mixed" => Ok(bit_arrays(9, mixed_widths(alloc)?)),
        // Packed records, and a blob for each leaf, with the bytes of each value in reverse order.
        "aos_swap" => Ok(swapped(alloc, packed(Order::Row))?),
        "soa_swap" => Ok(swapped(alloc, arrays(SoaForm::Multi, Order::Row))?),
        // Packed records, and a blob for each cell, where each byte of a leaf is a cell.
        "aos_split" => Ok(split(alloc, packed(Order::Row))?),
        "soa_split" => Ok(split(alloc, arrays(SoaForm::Multi, Order::Row))?),
        // Packed records, and a blob for each leaf, in Morton order.
        "aos_morton" => Ok(packed(Order::Morton)),
        "soa_morton" => Ok(arrays(SoaForm::Multi, Order::Morton)),
        _ => Err(BenchFault::Words),
    }
}

fn packed(order: Order) -> MapExpr
    ensures { IsBuiltTerm (term_of result) }
{
    MapExpr::Aos {
        form: AosForm::Packed,
        order,
    }
}

fn arrays(form: SoaForm, order: Order) -> MapExpr
    ensures { IsBuiltTerm (term_of result) }
{
    MapExpr::Soa { form, order }
}

fn blocks(order: Order) -> MapExpr
    ensures { IsBuiltTerm (term_of result) }
{
    MapExpr::Aosoa { lanes: 8, order }
}

fn bit_records(width: u32, fields: WidthList) -> MapExpr
    ensures { IsBuiltTerm (term_of result) }
{
    MapExpr::BitAos {
        width,
        fields,
        order: Order::Row,
    }
}

fn bit_arrays(width: u32, fields: WidthList) -> MapExpr
    ensures { IsBuiltTerm (term_of result) }
{
    MapExpr::BitSoa {
        width,
        fields,
        order: Order::Row,
    }
}

// Widths for all leaves but the first.
fn mixed_widths(alloc: Global) -> Result<WidthList, NoMemory> {
    let mut fields = WidthList::new(alloc);
    fields.push(entry_of(alloc, "b", 11)?)?;
    fields.push(entry_of(alloc, "c", 23)?)?;
    fields.push(entry_of(alloc, "d", 57)?)?;
    Ok(fields)
}

// The width of the leaves under a field.
fn entry_of(alloc: Global, name: &str, width: u32) -> Result<FieldWidth, NoMemory>
    requires { IsTrue (is_name name.now) }
{
    let Some(name) = Name::new(name) else {
        unreachable!()
    };
    let path = Path::new(alloc, name)?;
    Ok(FieldWidth { path, width })
}

fn swapped(alloc: Global, inner: MapExpr) -> Result<MapExpr, NoMemory>
    requires { IsBuiltTerm (term_of inner) }
    ensures { IfOk result (λ expr. IsBuiltTerm (term_of expr)) }
{
    Ok(MapExpr::Byteswap(Box::new(alloc, inner)?))
}

fn split(alloc: Global, inner: MapExpr) -> Result<MapExpr, NoMemory>
    requires { IsBuiltTerm (term_of inner) }
    ensures { IfOk result (λ expr. IsBuiltTerm (term_of expr)) }
{
    Ok(MapExpr::Bytesplit(Box::new(alloc, inner)?))
}
