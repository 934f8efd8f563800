ghost use Rattle.std.specs.Prelude.{◌≡◌, ◌<◌, ◌≤◌};
ghost use Rattle.line_phrases.specs.Imports.{[], length, map, OnOk, IfOk, IfErr, nothing, arrays, fields_of_list, read, braced, dim, dims, field_within, fields, listed, typed, fields_of, tree_of};
ghost use Rattle.line_grammar.specs.Prelude.{joined};
ghost use Rattle.line_phrases.specs.Inner.Gives.{Gives, IsSyntax};
ghost use Rattle.line_phrases.specs.Inner.Fields.{boxed_field};

use crate::{ReadError, Tokens};
use line_grammar::Count;
use line_tokens::Sign;
use record_dim::{Dim, Field, FieldList, LeafType, Name};
use std::alloc::{AllocError as NoMemory, Global};

/// The fields of a record, in braces.
#[tactic(auto, unfolding(line_grammar::specs::Language::fields))]
pub fn read_fields(alloc: Global, tokens: &mut Tokens) -> Result<FieldList, ReadError>
    ensures { Gives (λ x. (fields_of x, tokens.new)) result (read fields tokens.old) }
{
    read_braced(alloc, tokens.len(), tokens)
}

// Braces nest at most `room` deep in them.
#[cycle(fields)]
#[tactic(auto, unfolding(line_grammar::specs::Language::braced))]
fn read_braced(alloc: Global, room: usize, tokens: &mut Tokens) -> Result<FieldList, ReadError>
    ensures gives { Gives (λ x. (fields_of x, tokens.new)) result (read (braced (field_within room)) tokens.old) }
    ensures shorter { OnOk result (length tokens.new < length tokens.old) }
{
    tokens.sign(Sign::OpenBrace)?;
    let fields = read_field_list(alloc, room, tokens)?;
    tokens.sign(Sign::CloseBrace)?;
    let fields = field_list(alloc, fields)?;
    Ok(fields)
}

#[cycle(fields)]
#[tactic(auto, unfolding(line_grammar::specs::Language::listed), using(crate::specs::ListLaws::viewed_steps))]
fn read_field_list(
    alloc: Global,
    room: usize,
    tokens: &mut Tokens,
) -> Result<Vec<Box<Field>>, ReadError>
    ensures gives { Gives (λ x. (map boxed_field x.items, tokens.new)) result (read (listed (field_within room)) tokens.old) }
    ensures shorter { OnOk result (length tokens.new < length tokens.old) }
{
    let mut fields = Vec::new(alloc);
    fields.push(read_field(alloc, room, tokens)?)?;
    while tokens.begins_sign(Sign::Comma) {
        tokens.sign(Sign::Comma)?;
        fields.push(read_field(alloc, room, tokens)?)?;
    }
    Ok(fields)
}

// What stands around the fields of a field is read by functions of its own, so that a level of braces takes little of the stack.
#[cycle(fields)]
#[tactic(auto, unfolding(line_grammar::specs::Language::field_within, line_grammar::specs::Language::nested, line_grammar::specs::Language::typed))]
fn read_field(alloc: Global, room: usize, tokens: &mut Tokens) -> Result<Box<Field>, ReadError>
    ensures gives { Gives (λ x. (boxed_field x, tokens.new)) result (read (field_within room) tokens.old) }
    ensures shorter { OnOk result (length tokens.new < length tokens.old) }
{
    let name = tokens.item::<Name>()?;
    if room == 0 {
        return read_typed(alloc, name, tokens);
    }
    if tokens.begins_sign(Sign::Colon) {
        return read_typed(alloc, name, tokens);
    }
    let fields = read_braced(alloc, room - 1, tokens)?;
    read_arrays(alloc, name, Dim::Fields(fields), tokens)
}

// The type of a field, and the counts of its arrays.
#[inline(never)]
#[tactic(auto, unfolding(line_grammar::specs::Language::typed))]
fn read_typed(alloc: Global, name: Name, tokens: &mut Tokens) -> Result<Box<Field>, ReadError>
    ensures gives { Gives (λ x. (boxed_field x, tokens.new)) result (read (typed name) tokens.old) }
    ensures shorter { OnOk result (length tokens.new < length tokens.old) }
{
    tokens.sign(Sign::Colon)?;
    let kind = tokens.item::<LeafType>()?;
    read_arrays(alloc, name, Dim::Leaf(kind), tokens)
}

// The counts of the arrays in which a field has its elements.
#[inline(never)]
fn read_arrays(
    alloc: Global,
    name: Name,
    element: Dim,
    tokens: &mut Tokens,
) -> Result<Box<Field>, ReadError>
    ensures gives { Gives (λ x. (boxed_field x, tokens.new)) result (read (joined (dims []) (λ counts. nothing (name, arrays counts (tree_of element)))) tokens.old) }
    ensures no_longer { OnOk result (length tokens.new ≤ length tokens.old) }
{
    let counts = read_dims(alloc, tokens)?;
    let dim = array_of(alloc, counts, element)?;
    let field = Box::new(alloc, Field { name, dim })?;
    Ok(field)
}

// The counts in brackets, the outermost first.
#[tactic(auto, using(crate::specs::FieldLaws::dim_steps))]
fn read_dims(alloc: Global, tokens: &mut Tokens) -> Result<Vec<u32>, ReadError>
    ensures gives { Gives (λ x. (x.items, tokens.new)) result (read (dims []) tokens.old) }
    ensures no_longer { OnOk result (length tokens.new ≤ length tokens.old) }
{
    let mut counts = Vec::new(alloc);
    while tokens.begins_sign(Sign::OpenBracket) {
        counts.push(read_dim(tokens)?)?;
    }
    Ok(counts)
}

#[tactic(auto, unfolding(line_grammar::specs::Language::dim))]
fn read_dim(tokens: &mut Tokens) -> Result<u32, ReadError>
    ensures gives { Gives (λ x. (x, tokens.new)) result (read dim tokens.old) }
    ensures shorter { OnOk result (length tokens.new < length tokens.old) }
    ensures fault { IfErr result IsSyntax }
{
    tokens.sign(Sign::OpenBracket)?;
    let count = tokens.item::<Count>()?;
    tokens.sign(Sign::CloseBracket)?;
    Ok(count)
}

// Arrays of so many elements, the first count the outermost.
#[tactic(auto, using(crate::specs::FieldLaws::arrays_last))]
fn array_of(alloc: Global, mut counts: Vec<u32>, element: Dim) -> Result<Dim, NoMemory>
    ensures { IfOk result (λ dim. tree_of dim ≡ arrays counts.items (tree_of element)) }
{
    let mut dim = element;
    while let Some(len) = counts.pop() {
        let element = Box::new(alloc, dim)?;
        dim = Dim::Array { len, element };
    }
    Ok(dim)
}

// The fields as a list of the record's own.
#[inline(never)]
#[tactic(auto, using(crate::specs::FieldLaws::fields_last))]
fn field_list(alloc: Global, mut fields: Vec<Box<Field>>) -> Result<FieldList, NoMemory>
    ensures { IfOk result (λ list. fields_of list ≡ fields_of_list (map boxed_field fields.items)) }
{
    let mut list = FieldList::End;
    while let Some(field) = fields.pop() {
        let rest = Box::new(alloc, list)?;
        list = FieldList::More { field, rest };
    }
    Ok(list)
}
