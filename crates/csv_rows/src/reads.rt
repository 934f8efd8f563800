// The records of a dataset, read one after another.
ghost use Rattle.std.specs.Prelude.{◌≡◌, ◌+◌, ◌<◌, ◌^◌, ◌∷◌, ℕ, ℤ, List, [], Option, IfOk, IfSome, MatchBool, false, option_map, nat_eq};
ghost use Rattle.std.specs.List.{slice_get};
ghost use Rattle.std.specs.Cmp.Lexicographic.{pointwise};
ghost use Rattle.csv.specs.Reading.{strip_bom};
ghost use Rattle.csv_rows.specs.Datasets.{unspaced, number_behind_sign};
ghost use Rattle.piece_bits.specs.Prelude.{shortened};
ghost use Rattle.csv_rows.specs.Inner.Unquoted.{HasNoQuote};
ghost use Rattle.csv_rows.specs.Inner.Readers.{IsAsked};

use memchr::memchr;
use std::alloc::AllocError as NoMemory;

/// Records that are read one after another. The one that was read last is asked for its fields: column after column is the fastest.
pub trait Records {
    // the records that are left
    ghost left: { Self → List (List (List ℕ)) };

    // the fields of the record that was read last
    ghost fields: { Self → List (List ℕ) };

    // what reading them stands on
    ghost stands: { Self → Type 0 };

    /// Reads the next record, if one is left.
    fn next(&mut self) -> Result<bool, NoMemory>
        requires { stands self.old }
        ensures { IfOk result (λ found. MatchBool found
            (stands self.new × (left self.old ≡ fields self.new ∷ left self.new))
            (left self.old ≡ [])) };

    /// Whether the field of a column, without blanks at its ends, is a name, if there is such a column.
    fn is_named(&mut self, column: usize, name: &[u8]) -> Option<bool>
        requires { stands self.old }
        ensures named { result ≡ option_map (λ field. pointwise nat_eq (unspaced field) name.now) (slice_get (fields self.old) column) }
        ensures few { IfSome result (λ named. column + 1 < 2 ^ 64) }
        ensures asked { IsAsked stands fields left self.old self.new };

    /// The number of the field of a column, if there is such a column, and it is a number.
    fn number(&mut self, column: usize) -> Option<Option<i128>>
        requires { stands self.old }
        ensures number { result ≡ option_map (λ field. option_map shortened (number_behind_sign (unspaced field))) (slice_get (fields self.old) column) }
        ensures asked { IsAsked stands fields left self.old self.new };
}

/// Whether a byte is a quote.
pub fn has_quote(bytes: &[u8]) -> bool
    ensures { result ≡ false → HasNoQuote bytes.now }
{
    memchr(b'"', bytes).is_some()
}

/// The bytes that the records of a dataset are read from: behind a byte order mark, and behind one more, which `csv` drops.
pub fn without_marks(bytes: &[u8]) -> &[u8]
    ensures { result.now ≡ strip_bom (strip_bom bytes.now) }
{
    without_mark(without_mark(bytes))
}

/// The bytes behind a byte order mark.
#[tactic(auto, unfolding(csv::specs::Reading::strip_bom))]
pub fn without_mark(bytes: &[u8]) -> &[u8]
    ensures { result.now ≡ strip_bom bytes.now }
{
    if bytes.len() >= 3 && bytes[0] == 0xEF && bytes[1] == 0xBB && bytes[2] == 0xBF {
        &bytes[3..]
    } else {
        bytes
    }
}
