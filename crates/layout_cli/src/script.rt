ghost use Rattle.std.specs.Prelude.{◌≡◌, ◌≤◌, ◌++◌, OnOk, IfOk};
ghost use Rattle.layout_io.specs.Prelude.{digits_text};
ghost use Rattle.layout_cli.specs.Generated.{with_line_end, script_text};

use crate::number::push_number;
use record_dim::Text;
use std::alloc::{AllocError as NoMemory, Global};

const FRONT: &str = "\
record P { pos { x:i32, y:i32 }, mass:u16, hot:bool, h:u8[2], id:u64 }
load A : P [?] as count(aos(packed, row)) from \"gen.csv\"
";

const BACK: &str = "\
update A where hot set pos.x = pos.x * 2, mass = mass + 1
copy A to B
update B set pos.y = pos.y - pos.x
copy B to C
kernel C axpy(3, pos.x, pos.y) lanes 8
copy C to D
copy D to E
copy E to F
reduce F sum pos.x
reduce F sum pos.y
reduce F max id
reduce E count where hot and h[0] > h[1]
counts A
";

/// The script that loads the dataset of `n` rows, changes it, and copies it from layout to layout.
pub fn gen_script(alloc: Global, n: u32) -> Result<Text, NoMemory>
    requires { (1 ≤ n) × (n ≤ 65536) }
    ensures { IfOk result (λ text. text ≡ script_text n) }
{
    let mut text = Text::new(alloc);
    text.push_str(FRONT)?;
    push_line(&mut text, "view B : P [", n, "] as soa(multi, row)")?;
    push_line(&mut text, "view C : P [", n, "] as aosoa(8, row)")?;
    push_line(&mut text, "view D : P [", n, "] as bitaos(40, row)")?;
    push_line(
        &mut text,
        "view E : P [",
        n,
        "] as split(pos, byteswap(soa(single, col)), bitsoa(34, row))",
    )?;
    push_line(
        &mut text,
        "view F : P [",
        n,
        "] as bytesplit(aos(aligned, morton))",
    )?;
    text.push_str(BACK)?;
    Ok(text)
}

// Puts a line with this number in it at the end of the text.
fn push_line(text: &mut Text, front: &str, n: u32, back: &str) -> Result<(), NoMemory>
    ensures { OnOk result (text.new ≡ text.old ++ with_line_end (front.now ++ digits_text n ++ back.now)) }
{
    text.push_str(front)?;
    push_number(text, n, back)?;
    text.push_str("\n")
}
