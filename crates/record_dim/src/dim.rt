use crate::{LeafType, Name};

/// What a field holds: a leaf, a record, or `len` elements of one kind.
#[cycle(dim)]
pub enum Dim {
    Leaf(LeafType),
    Fields(FieldList),
    Array { len: u32, element: Box<Dim> },
}

/// The fields of a record, in order.
#[cycle(dim)]
pub enum FieldList {
    End,
    More {
        field: Box<Field>,
        rest: Box<FieldList>,
    },
}

/// A field of a record.
#[cycle(dim)]
#[derive(Drop)]
pub struct Field {
    pub name: Name,
    pub dim: Dim,
}

impl Dim {
    ghost use Rattle.std.specs.Prelude.{◌≡◌};
    ghost use Rattle.record_dim.specs.Trees.{tree_of, fields_of, IsRecord, Record};

    // The fields of a record.
    pub(crate) fn into_fields(self) -> FieldList
        requires { IsRecord self }
        ensures { Record (fields_of result) ≡ tree_of self }
    {
        match self {
            Dim::Fields(fields) => fields,
            Dim::Leaf(_) => unreachable!(),
            Dim::Array { len: _, element: _ } => unreachable!(),
        }
    }
}

impl Drop for Dim {
    #[cycle(dim)]
    fn drop(mut self) {
        loop {
            match self {
                Dim::Leaf(_) => return,
                Dim::Fields(_) => return,
                Dim::Array { len: _, element } => self = Box::into_inner(element),
            }
        }
    }
}

impl Drop for FieldList {
    #[cycle(dim)]
    fn drop(mut self) {
        loop {
            match self {
                FieldList::End => return,
                FieldList::More { field: _, rest } => self = Box::into_inner(rest),
            }
        }
    }
}
