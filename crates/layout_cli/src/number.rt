ghost use Rattle.std.specs.Prelude.{◌≡◌, ℕ, Some, IfSome, OnOk, ◌++◌};
ghost use Rattle.layout_io.specs.Prelude.{digits_text};
ghost use Rattle.layout_cli.specs.Numbers.{generated_rows, is_number_word, IsNumberWord};

use itoa::Buffer;
use record_dim::Text;
use std::alloc::AllocError as NoMemory;

/// The most rows that a generated script has.
const MAX_ROWS: u32 = 65_536;

/// The number of rows that a word names: a decimal from 1 to 65,536 without a leading zero.
pub fn gen_number(word: &str) -> Option<u32>
    ensures number { result ≡ generated_rows word.now }
    ensures named { IfSome result (IsNumberWord word.now) }
    ensures only { (n : ℕ) → IsNumberWord word.now n → result ≡ Some n }
{
    // 0 is no number of rows
    let n = word.parse::<u32>().unwrap_or(0);
    if is_number_word(word, n) {
        Some(n)
    } else {
        None
    }
}

fn is_number_word(word: &str, n: u32) -> bool
    ensures { result ≡ is_number_word word.now n }
{
    1 <= n && n <= MAX_ROWS && word == Buffer::new().format(n)
}

// Puts the number and what stands behind it at the end of the text.
pub(crate) fn push_number(text: &mut Text, number: u32, behind: &str) -> Result<(), NoMemory>
    ensures { OnOk result (text.new ≡ text.old ++ digits_text number ++ behind.now) }
{
    text.push_str(Buffer::new().format(number))?;
    text.push_str(behind)
}
