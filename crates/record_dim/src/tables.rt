ghost use Rattle.std.specs.Prelude.{◌≡◌, [], ◌∷◌, ◌++◌, OnOk, IfOk};
ghost use Rattle.record_dim.specs.Trees.{tree_of, fields_of, Record, Array};
ghost use Rattle.record_dim.specs.declared.path.PathStep.TheVariants.{At};
ghost use Rattle.record_dim.specs.Paths.{step_text};
ghost use Rattle.record_dim.specs.Leaves.{kinds_of, texts_of};
ghost use Rattle.record_dim.specs.Inner.Gathering.{node_kinds, node_texts, record_kinds, record_texts};

use crate::{Dim, Field, FieldList, LeafType, Text};
use std::alloc::{AllocError as NoMemory, Global};

/// The type and the path text of each leaf, in order.
#[derive(Drop)]
pub struct Tables {
    pub kinds: Vec<LeafType>,
    pub texts: Vec<Text>,
}

/// The tables of a record with these fields.
#[tactic(auto, using(crate::proofs::Gathered::whole))]
pub fn tables_of(alloc: Global, fields: &FieldList) -> Result<Tables, NoMemory>
    ensures kinds { IfOk result (λ tables. tables.kinds.items ≡ kinds_of (fields_of fields.now)) }
    ensures texts { IfOk result (λ tables. tables.texts.items ≡ texts_of (fields_of fields.now)) }
{
    let mut tables = Tables {
        kinds: Vec::new(alloc),
        texts: Vec::new(alloc),
    };
    gather_fields(alloc, fields, "", &mut tables)?;
    Ok(tables)
}

// Puts the leaves of a node at the end, where `text` is the path text of the node.
#[cycle(gather)]
#[tactic(auto, using(crate::proofs::Gathered::gathered))]
fn gather(alloc: Global, dim: &Dim, text: Text, tables: &mut Tables) -> Result<(), NoMemory>
    ensures kinds { OnOk result (tables.new.kinds.items ≡ tables.old.kinds.items ++ node_kinds (tree_of dim.now)) }
    ensures texts { OnOk result (tables.new.texts.items ≡ tables.old.texts.items ++ node_texts text (tree_of dim.now)) }
{
    match dim {
        Dim::Leaf(kind) => put(*kind, text, tables),
        Dim::Fields(fields) => gather_record(alloc, fields, text, tables),
        Dim::Array { len, element } => gather_elements(alloc, *len, element, text.as_str(), tables),
    }
}

fn put(kind: LeafType, text: Text, tables: &mut Tables) -> Result<(), NoMemory>
    ensures kinds { OnOk result (tables.new.kinds.items ≡ tables.old.kinds.items ++ kind ∷ []) }
    ensures texts { OnOk result (tables.new.texts.items ≡ tables.old.texts.items ++ text ∷ []) }
{
    tables.kinds.push(kind)?;
    tables.texts.push(text)?;
    Ok(())
}

// The same for a record, where `text` is its path text.
#[cycle(gather)]
#[tactic(auto, using(crate::proofs::Gathered::gathered))]
fn gather_record(
    alloc: Global,
    fields: &FieldList,
    text: Text,
    tables: &mut Tables,
) -> Result<(), NoMemory>
    ensures kinds { OnOk result (tables.new.kinds.items ≡ tables.old.kinds.items ++ node_kinds (Record (fields_of fields.now))) }
    ensures texts { OnOk result (tables.new.texts.items ≡ tables.old.texts.items ++ node_texts text (Record (fields_of fields.now))) }
{
    let mut front = text;
    front.push_str(".")?;
    gather_fields(alloc, fields, front.as_str(), tables)
}

// The same for the fields of a record, where `front` stands before each name.
#[cycle(gather)]
#[tactic(auto, using(crate::proofs::Gathered::gathered))]
fn gather_fields(
    alloc: Global,
    fields: &FieldList,
    front: &str,
    tables: &mut Tables,
) -> Result<(), NoMemory>
    ensures kinds { OnOk result (tables.new.kinds.items ≡ tables.old.kinds.items ++ record_kinds (fields_of fields.now)) }
    ensures texts { OnOk result (tables.new.texts.items ≡ tables.old.texts.items ++ record_texts front.now (fields_of fields.now)) }
{
    let mut left = fields;
    while let FieldList::More { field, rest } = left {
        gather_field(alloc, field, front, tables)?;
        left = rest;
    }
    Ok(())
}

#[cycle(gather)]
fn gather_field(
    alloc: Global,
    field: &Field,
    front: &str,
    tables: &mut Tables,
) -> Result<(), NoMemory>
    ensures kinds { OnOk result (tables.new.kinds.items ≡ tables.old.kinds.items ++ node_kinds (tree_of field.now.dim)) }
    ensures texts { OnOk result (tables.new.texts.items ≡ tables.old.texts.items ++ node_texts (front.now ++ field.now.name) (tree_of field.now.dim)) }
{
    let text = joined(alloc, front, field.name.as_str())?;
    gather(alloc, &field.dim, text, tables)
}

// The same for the elements of an array, where `text` is the path text of the array.
#[cycle(gather)]
#[tactic(auto, using(crate::proofs::Gathered::gathered))]
fn gather_elements(
    alloc: Global,
    len: u32,
    element: &Dim,
    text: &str,
    tables: &mut Tables,
) -> Result<(), NoMemory>
    ensures kinds { OnOk result (tables.new.kinds.items ≡ tables.old.kinds.items ++ node_kinds (Array len (tree_of element.now))) }
    ensures texts { OnOk result (tables.new.texts.items ≡ tables.old.texts.items ++ node_texts text.now (Array len (tree_of element.now))) }
{
    for number in 0..len {
        let own = numbered(alloc, text, number)?;
        gather(alloc, element, own, tables)?;
    }
    Ok(())
}

fn joined(alloc: Global, front: &str, name: &str) -> Result<Text, NoMemory>
    ensures { IfOk result (λ text. text ≡ front.now ++ name.now) }
{
    let mut text = Text::new(alloc);
    text.push_str(front)?;
    text.push_str(name)?;
    Ok(text)
}

fn numbered(alloc: Global, front: &str, number: u32) -> Result<Text, NoMemory>
    ensures { IfOk result (λ text. text ≡ front.now ++ step_text (At number)) }
{
    let mut text = Text::new(alloc);
    text.push_str(front)?;
    text.push_str("[")?;
    text.push_number(number)?;
    text.push_str("]")?;
    Ok(text)
}
