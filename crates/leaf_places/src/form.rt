// What stands at a place.
ghost use Rattle.std.specs.Prelude.{◌≡◌, true};
ghost use Rattle.leaf_places.specs.Spots.{IsForm};
ghost use Rattle.leaf_places.specs.Inner.Placing.{is_field, turns};

use piece_bits::Word;

/// Whether bytes are in reverse order.
pub fn is_turned(word: Word) -> bool
    ensures { result ≡ turns word }
{
    matches!(
        word,
        Word::TurnedU16
            | Word::TurnedU32
            | Word::TurnedU64
            | Word::TurnedI16
            | Word::TurnedI32
            | Word::TurnedI64
    )
}

/// Whether it is a field of bits.
pub fn is_field(word: Word) -> bool
    ensures { result ≡ is_field word }
{
    matches!(word, Word::Field)
}

/// Whether numbers of so many bits can stand so: a field has at most 57, and else it is whole bytes.
pub fn is_form(in_bits: bool, is_turned: bool, width: u32) -> bool
    ensures yes { result ≡ true → IsForm in_bits is_turned width }
    ensures no { IsForm in_bits is_turned width → result ≡ true }
{
    if in_bits {
        !is_turned && width <= 57
    } else {
        matches!(width, 8 | 16 | 32 | 64)
    }
}
