// The records of a dataset, counted.
ghost use Rattle.std.specs.Prelude.{◌≡◌, ◌+◌, ◌<◌, IfOk, IfSome, IfNone, length};
ghost use Rattle.csv.specs.declared.parser.State.TheVariants as st;
ghost use Rattle.csv_rows.specs.Datasets.{csv_records, records_behind};
ghost use Rattle.csv_rows.specs.Inner.Unquoted.{opens_behind};
ghost use Rattle.csv_rows.specs.Inner.Readers.{record_count, field_state, quote_state};

use crate::line::from_place;
use crate::lines::behind_ends;
use crate::reads::without_marks;
use memchr::{memchr, memchr3};
use std::alloc::{AllocError as NoMemory, Global};

/// The number of records of a dataset behind its header. Quotes are passed where they stand, so it takes no memory.
pub fn count_rows(_alloc: Global, bytes: &[u8]) -> Result<u64, NoMemory>
    ensures { IfOk result (λ rows. rows ≡ length (records_behind (csv_records bytes.now))) }
{
    let mut text = without_marks(bytes);
    let mut records = 0u64;
    while let Some(rest) = behind_record(text) {
        text = rest;
        records += 1;
    }
    Ok(records.saturating_sub(1))
}

// What stands behind the first record, if there is one.
fn behind_record(bytes: &[u8]) -> Option<&[u8]>
    ensures some { IfSome result (λ rest. record_count st.StartRecord bytes.now ≡ record_count st.StartRecord rest.now + 1) }
    ensures none { IfNone result (record_count st.StartRecord bytes.now ≡ 0) }
{
    let text = behind_ends(bytes);
    if text.is_empty() {
        return None;
    }
    Some(behind_fields(text))
}

// What stands from the end of a record's last line on. A line's end in quotes ends no record.
fn behind_fields(text: &[u8]) -> &[u8]
    ensures { record_count st.StartField text.now ≡ record_count st.StartRecord result.now + 1 }
{
    let mut rest = text;
    let mut opens = true;
    while let Some(end) = memchr3(b'"', b'\r', b'\n', rest) {
        if rest[end] != b'"' {
            return from_place(rest, end);
        }
        opens = opens_behind(&rest[..end], opens);
        rest = behind_quote(from_place(rest, end + 1), opens);
    }
    from_place(rest, rest.len())
}

// Whether a quote behind these bytes opens quotes: one at the start of a field does, and one right behind quotes opens them again.
fn opens_behind(bytes: &[u8], opens: bool) -> bool
    ensures { result ≡ opens_behind opens bytes.now }
{
    match bytes.last() {
        Some(byte) => *byte == b',',
        None => opens,
    }
}

// What stands behind a quote, or behind the quotes that it opens, if they are closed.
fn behind_quote(text: &[u8], opens: bool) -> &[u8]
    ensures count { record_count (quote_state opens) text.now ≡ record_count (field_state opens) result.now }
    ensures shorter { length result.now < length text.now + 1 }
{
    if !opens {
        return text;
    }
    match memchr(b'"', text) {
        Some(end) => from_place(text, end + 1),
        None => from_place(text, text.len()),
    }
}
