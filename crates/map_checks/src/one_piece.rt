ghost use Rattle.std.specs.Prelude.{◌≡◌, [], ◌∷◌};
ghost use Rattle.map_checks.specs.Ruled.{IsSameRule};

use crate::rule::Rule;
use linearize::Order;
use places::{PieceRule, PieceRules};

impl Rule {
    /// The rule of a cell that has one piece.
    pub fn of_piece(order: Order, piece: PieceRule) -> Rule
        ensures order { result.order ≡ order }
        ensures pieces { result.pieces.items ≡ piece ∷ [] }
    {
        let mut pieces = PieceRules::new();
        pieces.push(piece);
        Rule { order, pieces }
    }

    /// The same rule once more. It takes no memory.
    pub fn copy(&self) -> Rule
        ensures { IsSameRule self.now result }
    {
        let mut pieces = PieceRules::new();
        for piece in self.pieces.as_slice() {
            pieces.push(*piece);
        }
        Rule {
            order: self.order,
            pieces,
        }
    }
}
