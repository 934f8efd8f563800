//! What may be asked, a line each. `|` stands between parts, and is in no line of the language.
//!
//! | asked | answered |
//! |---|---|
//! | `next AT BRACKETS TEXT` | the token that stands next in TEXT from place AT on, where BRACKETS are open |
//! | `tokens TEXT` | all tokens of TEXT, a bad one the last |
//! | `value A B INDEX.. : EXPR` | the value or the fault of EXPR over the leaves a and b at this index, and the leaves in the order of their reads, 1 for a and 2 for b; or the first path or index of it that is unknown |
//! | `nested COUNT HEAD\|FRONT\|MIDDLE\|BACK` | `line`, or the fault, of HEAD, COUNT of FRONT, MIDDLE and COUNT of BACK |
//! | `chain HEAD\|PART\|TAIL` | the same of 4,096 bytes: HEAD, as many PART as there is room for, TAIL, and spaces |
//! | `written HEAD\|PART\|TAIL` | the canonical text of these 4,096 bytes |
//! | `version_of TEXT` | the number of the version line TEXT, or `none` |
//! | `is_blank TEXT` | whether TEXT has no token: `yes` or `no` |
//! | `two ASKED` | the answer to ASKED, its lines read in version 2 of the language |
//! | any other line | its canonical text in version 1, or its fault with the column |

use crate::expressions::value_answer;
use crate::repeats::{chain, nested_answer, short_answer};
use crate::tokens::{next_answer, tokens_answer};
use line_writer::write_line;
use schema_lang::{Line, LineFault, MAX_LINE_BYTES, Version, is_blank, parse_line, version_of};
use std::alloc::{AllocError as NoMemory, Global};

/// The answer to a line of stdin.
pub(crate) fn answer(alloc: Global, asked: &[u8]) -> Result<String, NoMemory> {
    let (word, rest) = cut(asked, b' ');
    match str::from_utf8(word).unwrap_or("") {
        "two" => answer_in(alloc, Version::Two, rest),
        _ => answer_in(alloc, Version::One, asked),
    }
}

// The answer, where lines are of this version.
fn answer_in(alloc: Global, version: Version, asked: &[u8]) -> Result<String, NoMemory> {
    let (word, rest) = cut(asked, b' ');
    match str::from_utf8(word).unwrap_or("") {
        "next" => next_answer(alloc, rest),
        "tokens" => tokens_answer(alloc, rest),
        "value" => value_answer(alloc, version, rest),
        "nested" => nested_answer(alloc, version, rest),
        "chain" => short_answer(alloc, version, chain(alloc, rest)?.as_slice()),
        "written" => text_answer(alloc, version, chain(alloc, rest)?.as_slice()),
        "version_of" => version_answer(alloc, rest),
        "is_blank" => String::from_str(alloc, if is_blank(rest) { "yes" } else { "no" }),
        _ => text_answer(alloc, version, asked),
    }
}

// The number of a version line.
fn version_answer(alloc: Global, text: &[u8]) -> Result<String, NoMemory> {
    if text.len() > MAX_LINE_BYTES {
        return no_form(alloc);
    }
    match version_of(text) {
        Some(number) => format!(in alloc; "{number}"),
        None => String::from_str(alloc, "none"),
    }
}

// The canonical text of a line, or its fault.
fn text_answer(alloc: Global, version: Version, text: &[u8]) -> Result<String, NoMemory> {
    if text.len() > MAX_LINE_BYTES {
        return String::from_str(alloc, "LineTooLong");
    }
    match parse_line(alloc, text, version) {
        Ok(line) => {
            let answer = line_answer(alloc, &line);
            // One call: at the end of the block a drop for each kind of line would stand here.
            drop(line);
            answer
        }
        Err(fault) => fault_answer(alloc, fault),
    }
}

// The canonical text of a line.
fn line_answer(alloc: Global, line: &Line) -> Result<String, NoMemory> {
    String::from_str(alloc, write_line(alloc, line)?.as_str())
}

/// The fault of a line.
pub(crate) fn fault_answer(alloc: Global, fault: LineFault) -> Result<String, NoMemory> {
    match fault {
        LineFault::Syntax { column } => format!(in alloc; "Syntax {column}"),
        LineFault::TooDeep => String::from_str(alloc, "TooDeep"),
        LineFault::NoMemory => Err(NoMemory),
    }
}

/// The answer to a line of stdin that has not the form that its word says.
pub(crate) fn no_form(alloc: Global) -> Result<String, NoMemory> {
    String::from_str(alloc, "asked in no form")
}

/// What stands before the first such byte, and what behind it.
pub(crate) fn cut(text: &[u8], byte: u8) -> (&[u8], &[u8]) {
    match text.iter().position(|other| *other == byte) {
        Some(place) => (&text[..place], &text[place + 1..]),
        None => (text, &[]),
    }
}

/// The number that a word is in decimal.
pub(crate) fn number_of(word: &[u8]) -> Option<usize> {
    str::from_utf8(word).ok()?.parse::<usize>().ok()
}
