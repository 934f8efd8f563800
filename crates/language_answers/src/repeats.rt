// Lines that are made of one part many times.
use crate::forms::{cut, fault_answer, no_form, number_of};
use schema_lang::{MAX_LINE_BYTES, Version, parse_line};
use std::alloc::{AllocError as NoMemory, Global};

pub(crate) fn nested_answer(
    alloc: Global,
    version: Version,
    asked: &[u8],
) -> Result<String, NoMemory> {
    let (count, parts) = cut(asked, b' ');
    let Some(count) = number_of(count) else {
        return no_form(alloc);
    };
    let (head, parts) = cut(parts, b'|');
    let (front, parts) = cut(parts, b'|');
    let (middle, back) = cut(parts, b'|');
    let mut text = Vec::new(alloc);
    text.extend_from_slice(head)?;
    push_many(&mut text, front, count)?;
    text.extend_from_slice(middle)?;
    push_many(&mut text, back, count)?;
    short_answer(alloc, version, text.as_slice())
}

/// Head, as many parts as there is room for, tail, and spaces.
pub(crate) fn chain(alloc: Global, asked: &[u8]) -> Result<Vec<u8>, NoMemory> {
    let (head, parts) = cut(asked, b'|');
    let (part, tail) = cut(parts, b'|');
    let room = MAX_LINE_BYTES
        .saturating_sub(head.len())
        .saturating_sub(tail.len());
    let mut text = Vec::new(alloc);
    text.extend_from_slice(head)?;
    push_many(&mut text, part, room.checked_div(part.len()).unwrap_or(0))?;
    text.extend_from_slice(tail)?;
    let spaces = MAX_LINE_BYTES.saturating_sub(text.len());
    push_many(&mut text, b" ", spaces)?;
    Ok(text)
}

fn push_many(text: &mut Vec<u8>, part: &[u8], count: usize) -> Result<(), NoMemory> {
    for _ in 0..count {
        text.extend_from_slice(part)?;
    }
    Ok(())
}

/// `line`, or the fault.
pub(crate) fn short_answer(
    alloc: Global,
    version: Version,
    text: &[u8],
) -> Result<String, NoMemory> {
    if text.len() > MAX_LINE_BYTES {
        return no_form(alloc);
    }
    match parse_line(alloc, text, version) {
        Ok(line) => {
            drop(line);
            String::from_str(alloc, "line")
        }
        Err(fault) => fault_answer(alloc, fault),
    }
}
