ghost use Rattle.std.specs.Prelude.{ℕ, ◌≡◌, ◌+◌, ◌^◌, ◌<◌, [], ◌∷◌, length, map, slice_index};
ghost use Rattle.places.specs.PieceRules.{AreRulesOf, IsDense};

use crate::Mapping;
use crate::rule::PieceRule;

/// A mapping in which each cell has one piece, by a rule that holds in every slot.
pub trait Ruled: Mapping {
    /// How many slots of a cell lie one behind another, from each multiple of the number on; 0 where nothing is said of it.
    ghost lane_count: { Self → ℕ };

    /// Where a cell lies in every slot. The last three clauses hold where there is no slot, too.
    fn rule(&self, cell: usize) -> PieceRule
        requires { cell < length (Self.cell_list self.now) }
        ensures places { AreRulesOf (Self.layout self.now) (Self.slot_count self.now) cell
            (slice_index (map (λ h. h.width) (Self.hold_list self.now)) cell) (result ∷ []) }
        ensures blob_in { result.blob < length (Self.layout self.now) }
        ensures bits { result.bits ≡ slice_index (map (λ h. h.width) (Self.hold_list self.now)) cell }
        ensures bound { result.base + result.bits < 2 ^ 64 }
        ensures dense { IsDense (lane_count self.now) result };
}
