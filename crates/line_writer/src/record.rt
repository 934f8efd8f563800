// The fields of a record.
ghost use Rattle.std.specs.Prelude.{◌≡◌, ◌++◌, ◌∷◌, [], OnOk};
ghost use Rattle.line_writer.specs.Imports.{tree_of, fields_of, OpenBrace, CloseBrace, Word, Sign};
ghost use Rattle.line_writer.specs.Canonical.{dims_tokens, core_tokens, fields_tokens, held_tokens};
ghost use Rattle.line_writer.specs.Texts.{with_tokens_behind};

use crate::tokens::{push, write_bracketed};
use line_grammar::Spelled;
use record_dim::{Dim, Field, FieldList, Text};
use std::alloc::AllocError as NoMemory;

// What a field holds.
#[cycle(record)]
#[tactic(auto, using(crate::proofs::Behind::behind_append))]
pub(crate) fn write_held(text: &mut Text, dim: &Dim) -> Result<(), NoMemory>
    ensures { OnOk result (text.new ≡ with_tokens_behind text.old (held_tokens (tree_of dim.now))) }
{
    write_core(text, dim)?;
    write_dims(text, dim)
}

// The type, or the fields, below all numbers of elements.
#[cycle(record)]
#[tactic(auto, using(crate::proofs::Behind::behind_append))]
fn write_core(text: &mut Text, dim: &Dim) -> Result<(), NoMemory>
    ensures { OnOk result (text.new ≡ with_tokens_behind text.old (core_tokens (tree_of dim.now))) }
{
    let mut node = dim;
    loop {
        match node {
            Dim::Leaf(kind) => {
                push(text, ":")?;
                return push(text, kind.word());
            }
            Dim::Fields(fields) => return write_fields(text, fields),
            Dim::Array { len: _, element } => node = element,
        }
    }
}

#[cycle(record)]
#[tactic(auto, using(crate::proofs::Behind::behind_append))]
fn write_fields(text: &mut Text, fields: &FieldList) -> Result<(), NoMemory>
    ensures { OnOk result (text.new ≡ with_tokens_behind text.old (Sign OpenBrace ∷ (fields_tokens (fields_of fields.now) ++ Sign CloseBrace ∷ []))) }
{
    push(text, "{")?;
    if let FieldList::More { field, rest } = fields {
        write_field(text, field)?;
        let mut later: &FieldList = rest;
        while let FieldList::More { field, rest } = later {
            push(text, ",")?;
            write_field(text, field)?;
            later = rest;
        }
    }
    push(text, "}")
}

#[cycle(record)]
#[tactic(auto, using(crate::proofs::Behind::behind_append))]
fn write_field(text: &mut Text, field: &Field) -> Result<(), NoMemory>
    ensures { OnOk result (text.new ≡ with_tokens_behind text.old (Word field.now.name ∷ held_tokens (tree_of field.now.dim))) }
{
    push(text, field.name.as_str())?;
    write_held(text, &field.dim)
}

// The numbers of elements, the outermost first.
#[tactic(auto, using(crate::proofs::Behind::behind_append))]
fn write_dims(text: &mut Text, dim: &Dim) -> Result<(), NoMemory>
    ensures { OnOk result (text.new ≡ with_tokens_behind text.old (dims_tokens (tree_of dim.now))) }
{
    let mut node = dim;
    while let Dim::Array { len, element } = node {
        write_bracketed(text, *len)?;
        node = element;
    }
    Ok(())
}
