// What is made of three rows, worked out by hand, and which words are numbers of rows.
use crate::dataset::gen_dataset;
use crate::number::gen_number;
use crate::script::gen_script;
use std::test::Fail;

const SCRIPT: &str = "\
record P { pos { x:i32, y:i32 }, mass:u16, hot:bool, h:u8[2], id:u64 }
load A : P [?] as count(aos(packed, row)) from \"gen.csv\"
view B : P [3] as soa(multi, row)
view C : P [3] as aosoa(8, row)
view D : P [3] as bitaos(40, row)
view E : P [3] as split(pos, byteswap(soa(single, col)), bitsoa(34, row))
view F : P [3] as bytesplit(aos(aligned, morton))
update A where hot set pos.x = pos.x * 2, mass = mass + 1
copy A to B
update B set pos.y = pos.y - pos.x
copy B to C
kernel C axpy(3, pos.x, pos.y) lanes 8
copy C to D
copy D to E
copy E to F
reduce F sum pos.x
reduce F sum pos.y
reduce F max id
reduce E count where hot and h[0] > h[1]
counts A
";

const DATASET: &str = "\
pos.x,pos.y,mass,hot,h[0],h[1],id
0,0,0,0,0,255,0
1,-1,1,1,1,254,65537
2,-2,2,0,2,253,131074
";

// Each word with its number of rows, or 0 where it is none.
const WORDS: [(&str, u32); 12] = [
    ("1", 1),
    ("9", 9),
    ("10", 10),
    ("65536", 65_536),
    ("", 0),
    ("0", 0),
    ("01", 0),
    ("+1", 0),
    ("-1", 0),
    ("1 ", 0),
    ("65537", 0),
    ("4294967297", 0),
];

#[test]
fn three_rows_are_made(rt: HostRuntime) -> Result<(), Fail> {
    let script = gen_script(rt.alloc(), 3)?;
    assert!(rt; script.as_str() == SCRIPT);
    let dataset = gen_dataset(rt.alloc(), 3)?;
    assert!(rt; dataset.as_str() == DATASET);
    Ok(())
}

#[test]
fn words_are_numbers_of_rows(rt: HostRuntime) {
    for (word, number) in WORDS {
        assert!(rt; gen_number(word).unwrap_or(0) == number);
    }
}
