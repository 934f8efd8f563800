// The value of an expression over two leaves.
ghost use Rattle.std.specs.Prelude.{◌≡◌, ◌<◌, length};
ghost use Rattle.expr_lang.specs.Prelude.{bound_leaves, bound_rank};
ghost use Rattle.schema_lang.specs.Parsing.{HasItsFields};

use crate::forms::{fault_answer, no_form};
use crate::row::LoggedRow;
use expr_lang::{BindFault, Bound, EvalFault, Expr, bind, eval};
use record_dim::{MakeSchema, PathStep, Schema, Steps};
use schema_lang::{Line, LineFault, MAX_LINE_BYTES, Version, parse_line};
use std::alloc::{AllocError as NoMemory, Global};
use std::marker::Brand;
use std::sync::ledger::{Blank, Ledger};

// What an expression is asked at.
#[derive(Drop)]
struct Place {
    numbers: [i128; 2],
    index: Vec<u64>,
}

pub(crate) fn value_answer(
    alloc: Global,
    version: Version,
    asked: &[u8],
) -> Result<String, NoMemory> {
    let Some((words, expr)) = str::from_utf8(asked).unwrap_or("").split_once(" : ") else {
        return no_form(alloc);
    };
    let Some(place) = place_of(alloc, words)? else {
        return no_form(alloc);
    };
    let mut text = Vec::new(alloc);
    text.extend_from_slice(b"reduce V count where ")?;
    text.extend_from_slice(expr.as_bytes())?;
    if text.len() > MAX_LINE_BYTES {
        return no_form(alloc);
    }
    match parse_line(alloc, text.as_slice(), version) {
        Ok(line) => {
            let answer = filter_answer(alloc, &line, &place);
            drop(line);
            answer
        }
        Err(fault) => fault_answer(alloc, fault),
    }
}

// The value of the expression that a line counts by.
fn filter_answer(alloc: Global, line: &Line, place: &Place) -> Result<String, NoMemory> {
    match line {
        Line::Count { filter, .. } => bound_answer(alloc, filter, place),
        _ => no_form(alloc),
    }
}

// Two numbers, and those of an index.
fn place_of(alloc: Global, words: &str) -> Result<Option<Place>, NoMemory> {
    let (left, rest) = words.split_once(' ').unwrap_or((words, ""));
    let (right, rest) = rest.split_once(' ').unwrap_or((rest, ""));
    let (Ok(left), Ok(right)) = (left.parse::<i128>(), right.parse::<i128>()) else {
        return Ok(None);
    };
    let mut index = Vec::new(alloc);
    for word in rest.split_whitespace() {
        let Ok(number) = word.parse::<u64>() else {
            return Ok(None);
        };
        index.push(number)?;
    }
    Ok(Some(Place {
        numbers: [left, right],
        index,
    }))
}

fn bound_answer(alloc: Global, expr: &Expr, place: &Place) -> Result<String, NoMemory> {
    let Some(schema) = schema(alloc)? else {
        return no_form(alloc);
    };
    if schema.leaf_count() != 2 {
        return no_form(alloc);
    }
    match bind(alloc, expr, &schema, place.index.len()) {
        Ok(bound) => outcome::<Brand>(alloc, &bound, place, Blank::new(1)),
        Err(BindFault::UnknownPath(path)) => unknown_path(alloc, path.as_slice()),
        Err(BindFault::UnknownIndex(dimension)) => format!(in alloc; "unknown i{dimension}"),
        Err(BindFault::NoMemory) => Err(NoMemory),
    }
}

// a:i64, b:i64
fn schema(alloc: Global) -> Result<Option<Schema>, NoMemory> {
    match parse_line(alloc, b"record P { a:i64, b:i64 }", Version::One) {
        Ok(line) => schema_of(alloc, line),
        Err(LineFault::NoMemory) => Err(NoMemory),
        Err(_) => Ok(None),
    }
}

// The schema that a line names.
fn schema_of(alloc: Global, line: Line) -> Result<Option<Schema>, NoMemory>
    requires { HasItsFields line }
{
    let dim = match line {
        Line::Define { name: _, dim } => dim,
        other => {
            drop(other);
            return Ok(None);
        }
    };
    match Schema::new(alloc, dim) {
        Ok(schema) => Ok(Some(schema)),
        Err(MakeSchema::Bad(_)) => Ok(None),
        Err(MakeSchema::NoMemory) => Err(NoMemory),
    }
}

fn unknown_path(alloc: Global, steps: &[PathStep]) -> Result<String, NoMemory> {
    let mut answer = String::from_str(alloc, "unknown ")?;
    for (place, step) in steps.iter().enumerate() {
        let text = match step {
            PathStep::Name(name) if place == 0 => format!(in alloc; "{}", name.as_str())?,
            PathStep::Name(name) => format!(in alloc; ".{}", name.as_str())?,
            PathStep::At(number) => format!(in alloc; "[{number}]")?,
        };
        answer.push_str(text.as_str())?;
    }
    Ok(answer)
}

fn outcome<L: Ledger>(
    alloc: Global,
    bound: &Bound,
    place: &Place,
    blank: Blank,
) -> Result<String, NoMemory>
    requires name { blank.name ≡ L.name }
    requires parts { blank.parts ≡ L.parts }
    requires some { 0 < blank.parts }
    requires leaves { bound_leaves bound.now ≡ 2 }
    requires rank { length place.now.index.items ≡ bound_rank bound.now }
{
    let mut row = LoggedRow {
        numbers: place.numbers,
        log: 0,
    };
    let mut steps = Steps::<L>::new(blank);
    let value = eval(bound, &mut row, place.index.as_slice(), &mut steps);
    let log = row.log;
    match value {
        Ok(value) => format!(in alloc; "{value} reads {log}"),
        Err(EvalFault::Overflow) => format!(in alloc; "Overflow reads {log}"),
        Err(EvalFault::DivideByZero) => format!(in alloc; "DivideByZero reads {log}"),
    }
}
