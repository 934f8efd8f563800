ghost use Rattle.std.specs.Prelude.{◌≡◌, ◌<◌};
ghost use Rattle.line_phrases.specs.Imports.{length, map, OnOk, IfOk, Named, read, listed, inside_aos, inside_aosoa, inside_bits, inside_form, inside_soa, mapping, mapping_within};
ghost use Rattle.map_expr.specs.Terms.{term_of};
ghost use Rattle.line_grammar.specs.declared.line.MapWord.TheVariants as form;
ghost use Rattle.line_phrases.specs.Inner.Gives.{Gives};
ghost use Rattle.line_phrases.specs.Inner.Maps.{bits_of, boxed_map, over};

use crate::widths::read_field_widths;
use crate::{ReadError, Tokens, read_path};
use extents::Order;
use line_grammar::{Count, IntegerType, MapWord, Version, map_word};
use line_tokens::Sign;
use map_expr::{MapExpr, MapExprList};
use places::{AosForm, SoaForm};
use record_dim::{LeafType, Name};
use std::alloc::{AllocError as NoMemory, Global};

/// The mappings at the front, behind commas.
#[tactic(auto, unfolding(line_grammar::specs::Language::listed), using(crate::specs::ListLaws::viewed_steps))]
pub fn read_maps(
    alloc: Global,
    version: Version,
    tokens: &mut Tokens,
) -> Result<MapExprList, ReadError>
    ensures { Gives (λ x. (map term_of x, tokens.new)) result (read (listed (mapping version)) tokens.old) }
{
    let mut maps = MapExprList::new(alloc);
    maps.push(read_map(alloc, version, tokens)?)?;
    while tokens.begins_sign(Sign::Comma) {
        tokens.sign(Sign::Comma)?;
        maps.push(read_map(alloc, version, tokens)?)?;
    }
    Ok(maps)
}

/// The mapping at the front, in a version of the language. A level of brackets takes little of the stack: what it hands on lies in
/// boxes, and what has no mappings in it is read by functions of its own.
#[tactic(auto, unfolding(line_grammar::specs::Language::mapping))]
pub fn read_map(alloc: Global, version: Version, tokens: &mut Tokens) -> Result<MapExpr, ReadError>
    ensures gives { Gives (λ x. (term_of x, tokens.new)) result (read (mapping version) tokens.old) }
    ensures shorter { OnOk result (length tokens.new < length tokens.old) }
{
    let map = read_boxed(alloc, version, tokens.len(), tokens)?;
    Ok(Box::into_inner(map))
}

// Its brackets nest at most `room` deep.
#[cycle(map)]
#[tactic(auto, unfolding(line_grammar::specs::Language::mapping_within, line_grammar::specs::Language::form_or_name))]
fn read_boxed(
    alloc: Global,
    version: Version,
    room: usize,
    tokens: &mut Tokens,
) -> Result<Box<MapExpr>, ReadError>
    ensures gives { Gives (λ x. (boxed_map x, tokens.new)) result (read (mapping_within version room) tokens.old) }
    ensures shorter { OnOk result (length tokens.new < length tokens.old) }
{
    let word = tokens.item::<Name>()?;
    if room == 0 {
        return Ok(named(alloc, word)?);
    }
    match map_word(&word) {
        None => Ok(named(alloc, word)?),
        Some(form) => {
            if !tokens.begins_sign(Sign::OpenParen) {
                return Ok(named(alloc, word)?);
            }
            tokens.sign(Sign::OpenParen)?;
            let map = read_form(alloc, version, room - 1, form, tokens)?;
            tokens.sign(Sign::CloseParen)?;
            Ok(map)
        }
    }
}

fn named(alloc: Global, word: Name) -> Result<Box<MapExpr>, NoMemory>
    ensures { IfOk result (λ x. boxed_map x ≡ Named word) }
{
    boxed(alloc, MapExpr::Named(word))
}

fn boxed(alloc: Global, map: MapExpr) -> Result<Box<MapExpr>, NoMemory>
    ensures { IfOk result (λ x. boxed_map x ≡ term_of map) }
{
    let whole = Box::new(alloc, map)?;
    Ok(whole)
}

// The inside of a form's brackets.
#[cycle(map)]
#[tactic(auto, unfolding(line_grammar::specs::Language::inside_form))]
fn read_form(
    alloc: Global,
    version: Version,
    room: usize,
    form: MapWord,
    tokens: &mut Tokens,
) -> Result<Box<MapExpr>, ReadError>
    ensures gives { Gives (λ x. (boxed_map x, tokens.new)) result (read (inside_form version (mapping_within version room) form) tokens.old) }
    ensures shorter { OnOk result (length tokens.new < length tokens.old) }
{
    match form {
        MapWord::Aos => read_aos(alloc, tokens),
        MapWord::Soa => read_soa(alloc, tokens),
        MapWord::Aosoa => read_aosoa(alloc, tokens),
        MapWord::BitAos => read_bits(alloc, version, BitForm::Aos, tokens),
        MapWord::BitSoa => read_bits(alloc, version, BitForm::Soa, tokens),
        MapWord::Split => read_split(alloc, version, room, tokens),
        MapWord::Byteswap | MapWord::Bytesplit | MapWord::Count => {
            let inner = read_boxed(alloc, version, room, tokens)?;
            Ok(boxed(alloc, over(form, inner))?)
        }
        MapWord::Change => read_change(alloc, version, room, tokens),
        MapWord::Heat => read_heat(alloc, version, room, tokens),
    }
}

// One of the forms that have a mapping in them and nothing else.
fn over(form: MapWord, inner: Box<MapExpr>) -> MapExpr
    ensures { term_of result ≡ over form (boxed_map inner) }
{
    match form {
        MapWord::Byteswap => MapExpr::Byteswap(inner),
        MapWord::Bytesplit => MapExpr::Bytesplit(inner),
        _ => MapExpr::Count(inner),
    }
}

#[cycle(map)]
#[tactic(auto, unfolding(line_grammar::specs::Language::inside_form))]
fn read_split(
    alloc: Global,
    version: Version,
    room: usize,
    tokens: &mut Tokens,
) -> Result<Box<MapExpr>, ReadError>
    ensures gives { Gives (λ x. (boxed_map x, tokens.new)) result (read (inside_form version (mapping_within version room) form.Split) tokens.old) }
    ensures shorter { OnOk result (length tokens.new < length tokens.old) }
{
    let path = read_path(alloc, tokens)?;
    tokens.sign(Sign::Comma)?;
    let first = read_boxed(alloc, version, room, tokens)?;
    tokens.sign(Sign::Comma)?;
    let rest = read_boxed(alloc, version, room, tokens)?;
    Ok(boxed(alloc, MapExpr::Split { path, first, rest })?)
}

#[cycle(map)]
#[tactic(auto, unfolding(line_grammar::specs::Language::inside_form))]
fn read_change(
    alloc: Global,
    version: Version,
    room: usize,
    tokens: &mut Tokens,
) -> Result<Box<MapExpr>, ReadError>
    ensures gives { Gives (λ x. (boxed_map x, tokens.new)) result (read (inside_form version (mapping_within version room) form.Change) tokens.old) }
    ensures shorter { OnOk result (length tokens.new < length tokens.old) }
{
    let from = tokens.item::<LeafType>()?;
    tokens.sign(Sign::Arrow)?;
    let to = tokens.item::<IntegerType>()?;
    tokens.sign(Sign::Comma)?;
    let inner = read_boxed(alloc, version, room, tokens)?;
    Ok(boxed(alloc, MapExpr::Change { from, to, inner })?)
}

#[cycle(map)]
#[tactic(auto, unfolding(line_grammar::specs::Language::inside_form))]
fn read_heat(
    alloc: Global,
    version: Version,
    room: usize,
    tokens: &mut Tokens,
) -> Result<Box<MapExpr>, ReadError>
    ensures gives { Gives (λ x. (boxed_map x, tokens.new)) result (read (inside_form version (mapping_within version room) form.Heat) tokens.old) }
    ensures shorter { OnOk result (length tokens.new < length tokens.old) }
{
    let granule = tokens.item::<Count>()?;
    tokens.sign(Sign::Comma)?;
    let inner = read_boxed(alloc, version, room, tokens)?;
    Ok(boxed(alloc, MapExpr::Heat { granule, inner })?)
}

#[inline(never)]
#[tactic(auto, unfolding(line_grammar::specs::Language::inside_aos))]
fn read_aos(alloc: Global, tokens: &mut Tokens) -> Result<Box<MapExpr>, ReadError>
    ensures gives { Gives (λ x. (boxed_map x, tokens.new)) result (read inside_aos tokens.old) }
    ensures shorter { OnOk result (length tokens.new < length tokens.old) }
{
    let form = tokens.item::<AosForm>()?;
    tokens.sign(Sign::Comma)?;
    let order = tokens.item::<Order>()?;
    Ok(boxed(alloc, MapExpr::Aos { form, order })?)
}

#[inline(never)]
#[tactic(auto, unfolding(line_grammar::specs::Language::inside_soa))]
fn read_soa(alloc: Global, tokens: &mut Tokens) -> Result<Box<MapExpr>, ReadError>
    ensures gives { Gives (λ x. (boxed_map x, tokens.new)) result (read inside_soa tokens.old) }
    ensures shorter { OnOk result (length tokens.new < length tokens.old) }
{
    let form = tokens.item::<SoaForm>()?;
    tokens.sign(Sign::Comma)?;
    let order = tokens.item::<Order>()?;
    Ok(boxed(alloc, MapExpr::Soa { form, order })?)
}

#[inline(never)]
#[tactic(auto, unfolding(line_grammar::specs::Language::inside_aosoa))]
fn read_aosoa(alloc: Global, tokens: &mut Tokens) -> Result<Box<MapExpr>, ReadError>
    ensures gives { Gives (λ x. (boxed_map x, tokens.new)) result (read inside_aosoa tokens.old) }
    ensures shorter { OnOk result (length tokens.new < length tokens.old) }
{
    let lanes = tokens.item::<Count>()?;
    tokens.sign(Sign::Comma)?;
    let order = tokens.item::<Order>()?;
    Ok(boxed(alloc, MapExpr::Aosoa { lanes, order })?)
}

// The two forms that pack bits.
#[derive(Clone, Copy)]
enum BitForm {
    Aos,
    Soa,
}

#[inline(never)]
#[tactic(auto, unfolding(line_grammar::specs::Language::inside_bits))]
fn read_bits(
    alloc: Global,
    version: Version,
    form: BitForm,
    tokens: &mut Tokens,
) -> Result<Box<MapExpr>, ReadError>
    ensures gives { Gives (λ x. (boxed_map x, tokens.new)) result (read (inside_bits version (bits_of form)) tokens.old) }
    ensures shorter { OnOk result (length tokens.new < length tokens.old) }
{
    let width = tokens.item::<Count>()?;
    let fields = read_field_widths(alloc, version, tokens)?;
    tokens.sign(Sign::Comma)?;
    let order = tokens.item::<Order>()?;
    let map = match form {
        BitForm::Aos => MapExpr::BitAos {
            width,
            fields,
            order,
        },
        BitForm::Soa => MapExpr::BitSoa {
            width,
            fields,
            order,
        },
    };
    Ok(boxed(alloc, map)?)
}
