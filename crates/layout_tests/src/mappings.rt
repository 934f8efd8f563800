// Where the cells of each mapping lie that a public constructor makes, against places and limits worked out by hand.
ghost use Rattle.std.specs.Prelude.{◌≡◌, [], ◌∷◌, IfOk};

use map_aos::Aos;
use map_aosoa::Aosoa;
use map_bytes::{Bytesplit, Byteswap, Change};
use map_soa::Soa;
use map_split::Split;
use places::{AosForm, Cell, CellList, Mapping, NewMapping, SoaForm, pieces_of};
use record_dim::{LeafType, Sequence};
use std::alloc::{AllocError as NoMemory, Global};
use std::fmt::Write;
use std::test::Fail;

// A mapping, the types of its cells and the number of its slots. Then the bytes of its blobs, how its cells are held, and, of few slots, the
// pieces of all cells, slot after slot: a blob, a bit and a number of bits. Or why it is refused.
// 15790320 slots of 17 bytes are less than 2^28 bytes, and one more is too much. So are 2^23 slots of 32 bytes in blocks of 48 lanes, which
// leave slots over.
const MAPPINGS: &str = "\
packed structs: u8 u32 u16 in 2 => 14 ; u8 u32 u16 ; 0.0+8 0.8+32 0.40+16 0.56+8 0.64+32 0.96+16\n\
aligned structs: u8 u32 u16 in 2 => 24 ; u8 u32 u16 ; 0.0+8 0.32+32 0.64+16 0.96+8 0.128+32 0.160+16\n\
least structs: u8 u32 u16 in 2 => 16 ; u8 u32 u16 ; 0.48+8 0.0+32 0.32+16 0.112+8 0.64+32 0.96+16\n\
packed structs: u64 i64 in 16777216 => 268435456 ; u64 i64 ;\n\
packed structs: u64 i64 u8 in 16777216 => more than 2^24 slots, or more than 2^28 bytes in all blobs\n\
aligned structs: none in 16777216 => 0 ; ;\n\
aligned structs: none in 16777217 => more than 2^24 slots, or more than 2^28 bytes in all blobs\n\
one blob: u8 u32 u16 in 2 => 14 ; u8 u32 u16 ; 0.0+8 0.16+32 0.80+16 0.8+8 0.48+32 0.96+16\n\
aligned arrays: u8 u32 u16 in 2 => 16 ; u8 u32 u16 ; 0.0+8 0.32+32 0.96+16 0.8+8 0.64+32 0.112+16\n\
own blobs: u8 u32 u16 in 2 => 2 8 4 ; u8 u32 u16 ; 0.0+8 1.0+32 2.0+16 0.8+8 1.32+32 2.16+16\n\
one blob: none in 3 => 0 ; ;\n\
aligned arrays: none in 3 => 0 ; ;\n\
own blobs: none in 3 => ; ;\n\
own blobs: u64 i64 in 16777216 => 134217728 134217728 ; u64 i64 ;\n\
one blob: u64 i64 u8 in 15790320 => 268435440 ; u64 i64 u8 ;\n\
one blob: u64 i64 u8 in 15790321 => more than 2^24 slots, or more than 2^28 bytes in all blobs\n\
aligned arrays: i8 in 16777216 => 16777216 ; i8 ;\n\
aligned arrays: i8 in 16777217 => more than 2^24 slots, or more than 2^28 bytes in all blobs\n\
blocks of 2: u8 u16 in 3 => 12 ; u8 u16 ; 0.0+8 0.16+16 0.8+8 0.32+16 0.48+8 0.64+16\n\
blocks of 1: u8 i32 in 2 => 10 ; u8 i32 ; 0.0+8 0.8+32 0.40+8 0.48+32\n\
blocks of 64: u8 in 17 => 64 ; u8 ;\n\
blocks of 0: u8 in 16777217 => the lanes are not 1 to 64\n\
blocks of 65: u8 in 3 => the lanes are not 1 to 64\n\
blocks of 4: none in 5 => 0 ; ;\n\
blocks of 4: u64 in 0 => 0 ; u64 ;\n\
blocks of 3: none in 16777216 => 0 ; ;\n\
blocks of 3: none in 16777217 => more than 2^24 slots, or more than 2^28 bytes in all blobs\n\
blocks of 64: u64 i64 u64 i64 in 8388608 => 268435456 ; u64 i64 u64 i64 ;\n\
blocks of 64: u64 i64 u64 i64 in 8388609 => more than 2^24 slots, or more than 2^28 bytes in all blobs\n\
blocks of 48: u64 i64 u64 i64 in 8388608 => more than 2^24 slots, or more than 2^28 bytes in all blobs\n\
blocks of 48: u64 i64 u64 i64 in 8388576 => 268434432 ; u64 i64 u64 i64 ;\n\
turned structs: u16 u32 in 2 => 12 ; u16 u32 ; 0.8+8 0.0+8 0.40+8 0.32+8 0.24+8 0.16+8 0.56+8 0.48+8 0.88+8 0.80+8 0.72+8 0.64+8\n\
bytes in own blobs: u16 in 2 => 2 2 ; u16 ; 0.0+8 1.0+8 0.8+8 1.8+8\n\
narrow structs: i32 in 2 => 4 ; i16 ; 0.0+16 0.16+16\n\
sides: u8 u32 in 2 => 8 2 ; u8 u32 ; 1.0+8 0.0+32 1.8+8 0.32+32";

// The type of this name.
fn kind_of(word: &str) -> Option<LeafType> {
    match word {
        "u8" => Some(LeafType::U8),
        "u16" => Some(LeafType::U16),
        "u32" => Some(LeafType::U32),
        "u64" => Some(LeafType::U64),
        "i8" => Some(LeafType::I8),
        "i32" => Some(LeafType::I32),
        "i64" => Some(LeafType::I64),
        _ => None,
    }
}

// Cells of the types that are named.
fn cells_of(alloc: Global, words: &str) -> Result<CellList, NoMemory> {
    let mut cells = Sequence::new(alloc);
    for word in words.split(' ') {
        if let Some(kind) = kind_of(word) {
            let leaf = cells.len();
            cells.push(Cell { leaf, kind })?;
        }
    }
    Ok(cells)
}

// What a row tells of a mapping.
fn drawn<M: Mapping>(alloc: Global, map: &M) -> Result<String, NewMapping> {
    let mut text = String::new(alloc);
    for blob in 0..map.blob_count() {
        write!(text, "{} ", map.blob_bytes(blob))?;
    }
    text.push_str("; ")?;
    for cell in 0..map.cells() {
        let hold = map.hold(cell);
        let sign = if hold.signed { "i" } else { "u" };
        write!(text, "{sign}{} ", hold.width)?;
    }
    text.push_str(";")?;
    if map.slots() < 16 {
        push_places(&mut text, map)?;
    }
    Ok(text)
}

// The pieces of all cells, slot after slot.
fn push_places<M: Mapping>(text: &mut String, map: &M) -> Result<(), NoMemory> {
    for slot in 0..map.slots() {
        for cell in 0..map.cells() {
            for piece in pieces_of(map, slot, cell).as_slice() {
                write!(text, " {}.{}+{}", piece.blob, piece.bit, piece.bits)?;
            }
        }
    }
    Ok(())
}

fn structs(
    alloc: Global,
    cells: &CellList,
    slots: u64,
    form: AosForm,
) -> Result<String, NewMapping> {
    drawn(alloc, &Aos::new(alloc, cells, slots, form)?)
}

fn arrays(
    alloc: Global,
    cells: &CellList,
    slots: u64,
    form: SoaForm,
) -> Result<String, NewMapping> {
    drawn(alloc, &Soa::new(alloc, cells, slots, form)?)
}

// The lanes stand in the form.
fn blocks(alloc: Global, cells: &CellList, slots: u64, form: &str) -> Result<String, NewMapping> {
    let word = form.strip_prefix("blocks of ").unwrap_or("");
    let lanes = word.parse::<u32>().ok().unwrap_or(0);
    drawn(alloc, &Aosoa::new(alloc, cells, slots, lanes)?)
}

fn turned(alloc: Global, cells: &CellList, slots: u64) -> Result<String, NewMapping> {
    let inner = Aos::new(alloc, cells, slots, AosForm::Packed)?;
    drawn(alloc, &Byteswap::new(alloc, cells, inner)?)
}

// A list of one cell.
fn one_cell(alloc: Global, leaf: usize, kind: LeafType) -> Result<CellList, NoMemory>
    ensures { IfOk result (λ cells. cells ≡ record { leaf = leaf; kind = kind } ∷ []) }
{
    let mut cells = Sequence::new(alloc);
    cells.push(Cell { leaf, kind })?;
    Ok(cells)
}

// A list of two cells, the first of which is of the leaf 0.
fn two_cells(
    alloc: Global,
    kind: LeafType,
    leaf: usize,
    other: LeafType,
) -> Result<CellList, NoMemory>
    ensures { IfOk result (λ cells. cells ≡ record { leaf = 0; kind = kind } ∷ record { leaf = leaf; kind = other } ∷ []) }
{
    let mut cells = one_cell(alloc, 0, kind)?;
    cells.push(Cell { leaf, kind: other })?;
    Ok(cells)
}

// A cell of two bytes, each byte in a blob of its own.
fn cut(alloc: Global) -> Result<String, NewMapping> {
    let cells = one_cell(alloc, 0, LeafType::U16)?;
    let bytes = two_cells(alloc, LeafType::U8, 0, LeafType::U8)?;
    let inner = Soa::new(alloc, &bytes, 2, SoaForm::Multi)?;
    drawn(alloc, &Bytesplit::new(alloc, &cells, inner)?)
}

fn narrow(alloc: Global) -> Result<String, NewMapping> {
    let cells = one_cell(alloc, 0, LeafType::I32)?;
    let held = one_cell(alloc, 0, LeafType::I16)?;
    let inner = Aos::new(alloc, &held, 2, AosForm::Packed)?;
    let map = Change::new(alloc, &cells, LeafType::I32, LeafType::I16, inner)?;
    drawn(alloc, &map)
}

// Two cells, the second of which goes to the first side.
fn sides(alloc: Global) -> Result<String, NewMapping> {
    let cells = two_cells(alloc, LeafType::U8, 1, LeafType::U32)?;
    let first = one_cell(alloc, 1, LeafType::U32)?;
    let first = Aos::new(alloc, &first, 2, AosForm::Packed)?;
    let rest = one_cell(alloc, 0, LeafType::U8)?;
    let rest = Aos::new(alloc, &rest, 2, AosForm::Packed)?;
    drawn(
        alloc,
        &Split::new(alloc, &cells, &[false, true], first, rest)?,
    )
}

// The mapping of this form. The last three have cells and slots of their own.
fn of_form(alloc: Global, form: &str, cells: &CellList, slots: u64) -> Result<String, NewMapping> {
    match form {
        "packed structs" => structs(alloc, cells, slots, AosForm::Packed),
        "aligned structs" => structs(alloc, cells, slots, AosForm::Aligned),
        "least structs" => structs(alloc, cells, slots, AosForm::Min),
        "one blob" => arrays(alloc, cells, slots, SoaForm::Single),
        "aligned arrays" => arrays(alloc, cells, slots, SoaForm::Aligned),
        "own blobs" => arrays(alloc, cells, slots, SoaForm::Multi),
        "turned structs" => turned(alloc, cells, slots),
        "bytes in own blobs" => cut(alloc),
        "narrow structs" => narrow(alloc),
        "sides" => sides(alloc),
        _ => blocks(alloc, cells, slots, form),
    }
}

// Whether a row tells its mapping.
fn is_told(alloc: Global, row: &str) -> Result<bool, Fail> {
    let (form, rest) = row.split_once(": ").ok_or("no form")?;
    let (words, rest) = rest.split_once(" in ").ok_or("no cells")?;
    let (slots, told) = rest.split_once(" => ").ok_or("no slots")?;
    let slots = slots.parse::<u64>().ok().ok_or("no number")?;
    let cells = cells_of(alloc, words)?;
    match of_form(alloc, form, &cells, slots) {
        Ok(text) => Ok(text.as_str() == told),
        Err(bad) => Ok(format!(in alloc; "{bad}")?.as_str() == told),
    }
}

#[test]
fn cells_lie_where_their_mapping_puts_them(rt: HostRuntime) -> Result<(), Fail> {
    for row in MAPPINGS.lines() {
        assert!(rt; is_told(rt.alloc(), row)?, "{row}");
    }
    Ok(())
}
