ghost use Rattle.std.specs.Prelude.{IfSome};
ghost use Rattle.piece_bits.specs.Inner.Stands.{IsTurned, IsWhole};

use crate::Word;
use places::Hold;

/// The word of whole bytes that a leaf type with the sign and the width of a hold is.
pub fn whole_word(hold: Hold) -> Option<Word>
    ensures { IfSome result (λ word. IsWhole word hold.signed hold.width) }
{
    match (hold.signed, hold.width) {
        (false, 8) => Some(Word::U8),
        (false, 16) => Some(Word::U16),
        (false, 32) => Some(Word::U32),
        (false, 64) => Some(Word::U64),
        (true, 8) => Some(Word::I8),
        (true, 16) => Some(Word::I16),
        (true, 32) => Some(Word::I32),
        (true, 64) => Some(Word::I64),
        _ => None,
    }
}

/// The same with the bytes in reverse order.
pub fn turned_word(hold: Hold) -> Option<Word>
    ensures { IfSome result (λ word. IsTurned word hold.signed hold.width) }
{
    match (hold.signed, hold.width) {
        (false, 16) => Some(Word::TurnedU16),
        (false, 32) => Some(Word::TurnedU32),
        (false, 64) => Some(Word::TurnedU64),
        (true, 16) => Some(Word::TurnedI16),
        (true, 32) => Some(Word::TurnedI32),
        (true, 64) => Some(Word::TurnedI64),
        _ => None,
    }
}
