ghost use Rattle.std.specs.Prelude.{◌≡◌, ◌↔◌, IsTrue, IfOk};
ghost use Rattle.record_dim.specs.Trees.{tree_of, fields_of, Field as NamedTree, IsRecord};

use crate::{Dim, Field, FieldList, Name};
use std::alloc::{AllocError as NoMemory, Global};

impl Dim {
    /// An equal tree. It takes stack for each field and each level of the tree, so it is meant for trees of a few thousand of these.
    #[cycle(copy)]
    pub fn copy(&self, alloc: Global) -> Result<Dim, NoMemory>
        ensures tree { IfOk result (λ copy. tree_of copy ≡ tree_of self.now) }
        ensures kind { IfOk result (λ copy. IsRecord copy ↔ IsRecord self.now) }
    {
        match self {
            Dim::Leaf(kind) => Ok(Dim::Leaf(*kind)),
            Dim::Fields(fields) => Ok(Dim::Fields(fields.copy(alloc)?)),
            Dim::Array { len, element } => {
                let element = Box::new(alloc, element.copy(alloc)?)?;
                Ok(Dim::Array { len: *len, element })
            }
        }
    }
}

impl FieldList {
    /// An equal list of fields.
    #[cycle(copy)]
    pub(crate) fn copy(&self, alloc: Global) -> Result<FieldList, NoMemory>
        ensures { IfOk result (λ copy. fields_of copy ≡ fields_of self.now) }
    {
        match self {
            FieldList::End => Ok(FieldList::End),
            FieldList::More { field, rest } => {
                let dim = field.dim.copy(alloc)?;
                let rest = rest.copy(alloc)?;
                more(alloc, field.name, dim, rest)
            }
        }
    }
}

// The fields with one more in front.
fn more(alloc: Global, name: Name, dim: Dim, rest: FieldList) -> Result<FieldList, NoMemory>
    ensures { IfOk result (λ fields. fields_of fields ≡ NamedTree name (tree_of dim) (fields_of rest)) }
{
    let field = Box::new(alloc, Field { name, dim })?;
    let rest = Box::new(alloc, rest)?;
    Ok(FieldList::More { field, rest })
}

/// Whether two records are one tree.
#[cycle(same)]
pub fn are_same(fields: &FieldList, others: &FieldList) -> bool
    ensures { IsTrue result ↔ (fields_of fields.now ≡ fields_of others.now) }
{
    match (fields, others) {
        (FieldList::End, FieldList::End) => true,
        (
            FieldList::More { field, rest },
            FieldList::More {
                field: other,
                rest: more,
            },
        ) => { field.name == other.name && is_same(&field.dim, &other.dim) && are_same(rest, more) }
        _ => false,
    }
}

#[cycle(same)]
fn is_same(dim: &Dim, other: &Dim) -> bool
    ensures { IsTrue result ↔ (tree_of dim.now ≡ tree_of other.now) }
{
    match (dim, other) {
        (Dim::Leaf(kind), Dim::Leaf(other)) => kind == other,
        (Dim::Fields(fields), Dim::Fields(others)) => are_same(fields, others),
        (
            Dim::Array { len, element },
            Dim::Array {
                len: other_len,
                element: other,
            },
        ) => { len == other_len && is_same(element, other) }
        _ => false,
    }
}
