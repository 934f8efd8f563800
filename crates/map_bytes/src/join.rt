ghost use Rattle.std.specs.Prelude.{◌≡◌, ◌+◌, ◌≤◌, ◌++◌, length};

use places::{PieceRules, Pieces};

/// Appends the pieces of `next`. It takes no memory.
pub fn join_pieces(pieces: &mut Pieces, next: &Pieces)
    requires few { length pieces.old.items + length next.now.items ≤ 8 }
    ensures { pieces.new.items ≡ pieces.old.items ++ next.now.items }
{
    for piece in next.as_slice() {
        pieces.push(*piece);
    }
}

/// Appends the rules of `next`. It takes no memory.
pub fn join_rules(rules: &mut PieceRules, next: &PieceRules)
    requires few { length rules.old.items + length next.now.items ≤ 8 }
    ensures { rules.new.items ≡ rules.old.items ++ next.now.items }
{
    for rule in next.as_slice() {
        rules.push(*rule);
    }
}
