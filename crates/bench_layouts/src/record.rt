ghost use Rattle.std.specs.Prelude.{◌≡◌, IfOk, IsTrue};
ghost use Rattle.record_dim.specs.Prelude.{is_name, schema_fields, Single, fields_of};
ghost use Rattle.record_dim.specs.Trees.{Field as One};
ghost use Rattle.bench_layouts.specs.Inner.Formula.{sample_fields};
ghost use Rattle.bench_layouts.specs.Inner.Tables.{measured_fields};

use crate::fault::BenchFault;
use record_dim::{Dim, Field, FieldList, LeafType, MakeSchema, Name, Schema};
use std::alloc::{AllocError, Global};

/// The record of the leaves x, y, z and w, over which the formula is bound.
pub fn sample_schema(alloc: Global) -> Result<Schema, BenchFault>
    ensures { IfOk result (λ schema. schema_fields schema ≡ sample_fields) }
{
    let fields = field(alloc, "w", LeafType::I64, FieldList::End)?;
    let fields = field(alloc, "z", LeafType::I64, fields)?;
    let fields = field(alloc, "y", LeafType::I64, fields)?;
    let fields = field(alloc, "x", LeafType::I64, fields)?;
    schema_of(alloc, fields)
}

/// The record of the table that is written and read.
pub fn measured_schema(alloc: Global) -> Result<Schema, BenchFault>
    ensures { IfOk result (λ schema. schema_fields schema ≡ measured_fields) }
{
    let fields = field(alloc, "d", LeafType::I64, FieldList::End)?;
    let fields = field(alloc, "c", LeafType::I32, fields)?;
    let fields = field(alloc, "b", LeafType::I16, fields)?;
    let fields = field(alloc, "a", LeafType::I8, fields)?;
    schema_of(alloc, fields)
}

// The schema of these fields.
fn schema_of(alloc: Global, fields: FieldList) -> Result<Schema, BenchFault>
    ensures { IfOk result (λ schema. schema_fields schema ≡ fields_of fields) }
{
    match Schema::new(alloc, Dim::Fields(fields)) {
        Ok(schema) => Ok(schema),
        Err(MakeSchema::NoMemory) => Err(AllocError.into()),
        Err(MakeSchema::Bad(_)) => Err(BenchFault::Record),
    }
}

// A leaf of this name and type, and then the other fields.
fn field(
    alloc: Global,
    name: &str,
    kind: LeafType,
    rest: FieldList,
) -> Result<FieldList, AllocError>
    requires { IsTrue (is_name name.now) }
    ensures { IfOk result (λ fields. fields_of fields ≡ One name.now (Single kind) (fields_of rest)) }
{
    let Some(name) = Name::new(name) else {
        unreachable!()
    };
    let dim = Dim::Leaf(kind);
    let field = Box::new(alloc, Field { name, dim })?;
    let rest = Box::new(alloc, rest)?;
    Ok(FieldList::More { field, rest })
}
