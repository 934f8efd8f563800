ghost use Rattle.std.specs.Prelude.{◌≡◌, true, IfSome, [], ◌∷◌};
ghost use Rattle.piece_bits.specs.Inner.Joins.{AreJoined, Carries};

use places::PieceRule;

/// The piece that two make, where in every slot the second begins where the first ends.
fn both(one: PieceRule, next: PieceRule) -> Option<PieceRule>
    ensures { IfSome result (AreJoined one next) }
{
    let alike = next.blob == one.blob
        && next.lanes == one.lanes
        && next.block == one.block
        && next.lane == one.lane;
    if !alike || next.base < one.base || next.base - one.base != u64::from(one.bits) {
        return None;
    }
    let bits = one.bits.checked_add(next.bits)?;
    Some(PieceRule {
        blob: one.blob,
        base: one.base,
        lanes: one.lanes,
        block: one.block,
        lane: one.lane,
        bits,
    })
}

/// The one piece that pieces make of which each begins where the one before ends, in every slot.
pub fn joined(pieces: &[PieceRule]) -> Option<PieceRule>
    ensures { IfSome result (λ one. Carries pieces.now (one ∷ [])) }
{
    let (first, rest) = pieces.split_first()?;
    let mut one = *first;
    for next in rest {
        one = both(one, *next)?;
    }
    Some(one)
}
