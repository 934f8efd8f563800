ghost use Rattle.std.specs.Prelude.{◌≡◌, ◌<◌, ◌≤◌, ◌+◌, ◌↔◌, ℕ, true, IsTrue, Some, None, IfSome, IfNone, IfOk, IfErr, OnOk, length};
ghost use Rattle.std.specs.List.{slice_get, list_all};
ghost use Rattle.record_dim.specs.Trees.{tree_of, fields_of, IsRecord, Record};
ghost use Rattle.record_dim.specs.Leaves.{leaves, kinds_of, paths_of, texts_of, records_of, has_names, record_fault};
ghost use Rattle.record_dim.specs.Nodes.{node_of, IsUnder};
ghost use Rattle.record_dim.specs.Faults.{Names};

use crate::checks::{count_leaves, first_fault, names_in};
use crate::copies::are_same;
use crate::nodes::find;
use crate::tables::{Tables, tables_of};
use crate::{Dim, FieldList, LeafType, MakeSchema, Path};
use std::alloc::{AllocError as NoMemory, Global};

/// A record that is fit for a data set: at most 8 deep, no record empty, no name twice in one record, no array empty, and with 1 to 64 leaves.
#[derive(Drop)]
pub struct Schema {
    fields: FieldList,
    tables: Tables,
    ghost fit: { record_fault (Record (fields_of fields)) ≡ None },
    ghost named: { list_all has_names (records_of (Record (fields_of fields))) ≡ true },
    ghost kinds: { tables.kinds.items ≡ kinds_of (fields_of fields) },
    ghost texts: { tables.texts.items ≡ texts_of (fields_of fields) },
}

impl Schema {
    ghost use Rattle.record_dim.specs.Schemas.{schema_fields};

    /// The schema of the record `dim`. A `Bad` names the first fault of the record.
    pub fn new(alloc: Global, dim: Dim) -> Result<Schema, MakeSchema>
        requires { IsRecord dim }
        ensures made { IfOk result (λ schema. Record (schema_fields schema) ≡ tree_of dim) }
        ensures fit { OnOk result (record_fault (tree_of dim) ≡ None) }
        ensures refused { IfErr result (Names (record_fault (tree_of dim))) }
    {
        if let Some(bad) = first_fault(alloc, &dim)? {
            return Err(MakeSchema::Bad(bad));
        }
        names_in(&dim);
        let fields = dim.into_fields();
        let tables = tables_of(alloc, &fields)?;
        Ok(Schema { fields, tables })
    }

    /// The number of leaves.
    pub fn leaf_count(&self) -> usize
        ensures value { result ≡ length (leaves (schema_fields self.now)) }
        ensures some { 1 ≤ result }
        ensures few { result ≤ 64 }
    {
        self.tables.kinds.len()
    }

    /// The type of a leaf.
    pub fn leaf_type(&self, leaf: usize) -> LeafType
        requires { leaf < length (leaves (schema_fields self.now)) }
        ensures { slice_get (kinds_of (schema_fields self.now)) leaf ≡ Some result }
    {
        self.tables.kinds[leaf]
    }

    /// The path text of a leaf, as `pos.x` and `h[2]`.
    pub fn path_text(&self, leaf: usize) -> &str
        requires { leaf < length (leaves (schema_fields self.now)) }
        ensures { slice_get (texts_of (schema_fields self.now)) leaf ≡ Some result.now }
    {
        self.tables.texts[leaf].as_str()
    }

    /// The number of the leaf that has this path, and None where no leaf has it.
    pub fn leaf_of(&self, path: &Path) -> Option<usize>
        ensures some { IfSome result (λ leaf. slice_get (paths_of (schema_fields self.now)) leaf ≡ Some path.now) }
        ensures only { (leaf : ℕ) → slice_get (paths_of (schema_fields self.now)) leaf ≡ Some path.now → result ≡ Some leaf }
    {
        let (first, node) = find(&self.fields, path.as_slice())?;
        match node {
            Dim::Leaf(_) => Some(first),
            _ => None,
        }
    }

    /// The first leaf under the node that has this path, and the number of leaves under it. None where no node has the path.
    pub fn leaves_under(&self, path: &Path) -> Option<(usize, usize)>
        ensures none { IfNone result (node_of (schema_fields self.now) path.now ≡ None) }
        ensures some { IfSome result (λ found. IsUnder (schema_fields self.now) path.now found.0 found.1) }
        ensures inside { IfSome result (λ found. found.0 + found.1 ≤ length (leaves (schema_fields self.now))) }
    {
        let (first, node) = find(&self.fields, path.as_slice())?;
        Some((first, count_leaves(node)))
    }

    /// An equal schema.
    pub fn copy(&self, alloc: Global) -> Result<Schema, NoMemory>
        ensures { IfOk result (λ copy. schema_fields copy ≡ schema_fields self.now) }
    {
        let fields = self.fields.copy(alloc)?;
        let tables = tables_of(alloc, &fields)?;
        Ok(Schema { fields, tables })
    }

    /// A tree equal to the schema's.
    pub fn tree(&self, alloc: Global) -> Result<Dim, NoMemory>
        ensures tree { IfOk result (λ dim. tree_of dim ≡ Record (schema_fields self.now)) }
        ensures kind { IfOk result IsRecord }
    {
        let fields = self.fields.copy(alloc)?;
        Ok(Dim::Fields(fields))
    }

    /// Whether both are one tree, names included.
    pub fn same(&self, other: &Schema) -> bool
        ensures { IsTrue result ↔ (schema_fields self.now ≡ schema_fields other.now) }
    {
        are_same(&self.fields, &other.fields)
    }
}
