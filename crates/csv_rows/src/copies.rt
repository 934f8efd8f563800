// The records of a dataset, copied by csv.
ghost use Rattle.std.specs.Prelude.{◌≡◌, option_map};
ghost use Rattle.piece_bits.specs.Prelude.{shortened};
ghost use Rattle.csv_rows.specs.Datasets.{unspaced, number_behind_sign, csv_records};
ghost use Rattle.csv_rows.specs.Inner.Readers.{rows_left, IsReading};

use crate::number::{field_number, plain_number, unspaced};
use crate::reads::{Records, without_mark};
use csv::{ByteRecord, Reader, ReaderBuilder};
use std::alloc::{AllocError as NoMemory, Global};

/// The records of any dataset, each of which csv copies. So the columns of one are found as fast in any order.
#[derive(Drop)]
pub struct Copies<'a> {
    reader: Reader<&'a [u8]>,
    fields: ByteRecord,
}

impl Records for Copies<'_> {
    ghost use Rattle.csv.specs.Records.{fields_of};
    ghost use Rattle.csv_rows.specs.Inner.Readers.{rows_left, IsReading};

    ghost left = { λ copies. rows_left copies.reader };

    ghost fields = { λ copies. fields_of copies.fields };

    ghost stands = { λ copies. IsReading copies.reader };

    // a slice can always be read, and records may differ in length, so csv lacks nothing but memory
    fn next(&mut self) -> Result<bool, NoMemory> {
        let Ok(found) = self.reader.read_byte_record(&mut self.fields) else {
            return Err(NoMemory);
        };
        Ok(found)
    }

    fn is_named(&mut self, column: usize, name: &[u8]) -> Option<bool> {
        let field = self.fields.get(column)?;
        Some(unspaced(field) == name)
    }

    fn number(&mut self, column: usize) -> Option<Option<i128>> {
        let field = self.fields.get(column)?;
        Some(copied_number(field))
    }
}

// The number of a field, found in one pass where it is one as most are.
fn copied_number(field: &[u8]) -> Option<i128>
    ensures { result ≡ option_map shortened (number_behind_sign (unspaced field.now)) }
{
    match plain_number(field) {
        Some((value, count)) if count == field.len() => Some(value),
        _ => field_number(field),
    }
}

/// The records of a dataset, none of which was read.
pub fn copies_of(alloc: Global, bytes: &[u8]) -> Copies<'_>
    ensures reading { IsReading result.reader }
    ensures records { rows_left result.reader ≡ csv_records bytes.now }
{
    let reader = ReaderBuilder::new()
        .has_headers(false)
        .flexible(true)
        .from_reader(alloc, without_mark(bytes));
    Copies {
        reader,
        fields: ByteRecord::new(alloc),
    }
}
