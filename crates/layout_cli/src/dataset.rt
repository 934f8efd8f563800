ghost use Rattle.std.specs.Prelude.{◌≡◌, ◌<◌, ◌≤◌, ◌++◌, pos, neg_ℤ, codes, OnOk, IfOk};
ghost use Rattle.layout_io.specs.Prelude.{decimal_text};
ghost use Rattle.layout_cli.specs.Generated.{row_text, dataset_text};

use crate::number::push_number;
use itoa::Buffer;
use record_dim::Text;
use std::alloc::{AllocError as NoMemory, Global};

/// The dataset of `n` rows that the script over `n` rows loads.
pub fn gen_dataset(alloc: Global, n: u32) -> Result<Text, NoMemory>
    requires { (1 ≤ n) × (n ≤ 65536) }
    ensures { IfOk result (λ text. text ≡ dataset_text n) }
{
    let mut text = Text::new(alloc);
    text.push_str("pos.x,pos.y,mass,hot,h[0],h[1],id\n")?;
    for row in 0..n {
        push_row(&mut text, row)?;
    }
    Ok(text)
}

fn push_row(text: &mut Text, row: u32) -> Result<(), NoMemory>
    requires { row < 65536 }
    ensures { OnOk result (text.new ≡ text.old ++ row_text row) }
{
    push_number(text, row, ",")?;
    push_negated(text, row)?;
    push_number(text, row % 1000, ",")?;
    push_number(text, row % 2, ",")?;
    push_number(text, row % 256, ",")?;
    push_number(text, 255 - row % 256, ",")?;
    push_number(text, 65_537 * row, "\n")
}

// Puts the negated number and a comma at the end of the text.
fn push_negated(text: &mut Text, number: u32) -> Result<(), NoMemory>
    ensures { OnOk result (text.new ≡ text.old ++ decimal_text (neg_ℤ (pos number)) ++ codes ",") }
{
    text.push_str(Buffer::new().format(-i64::from(number)))?;
    text.push_str(",")
}
