// Mappings that lay out arrays of leaves: how many slots there are, and where those of a leaf begin.
ghost use Rattle.std.specs.Prelude.{◌≡◌, ◌+◌, ◌*◌, ◌%◌, ◌<◌, ◌≤◌};
ghost use Rattle.map_any.specs.Imports.{ℕ, IfSome, IsSomeAnd, length, map, option_map, slice_index, slot_count, term_of, array_of, lanes_in};
ghost use Rattle.map_any.specs.Inner.ArrayRuns.{IsArrayRun};
ghost use Rattle.map_any.specs.Inner.ArraySlots.{slots_in};
ghost use Rattle.map_any.specs.Maps.{extents_of, term_of_map};

use crate::any::AnyMap;
use linearize::Order;
use map_checks::slots_of;
use map_expr::MapExpr;
use places::Mapping;

/// Slots that lie in arrays: how many there are, and how many of a leaf lie one behind another from each multiple of their number on.
#[derive(Clone, Copy, Debug, PartialEq, Eq)]
pub struct ArraySlots {
    pub slots: u64,
    pub lanes: u64,
}

/// Where a slot of a leaf begins.
#[derive(Clone, Copy, Debug, PartialEq, Eq)]
pub struct BytePlace {
    pub blob: usize,
    pub byte: usize,
}

/// Where a slot of a leaf begins, and how many bytes further the slot does that is so many slots behind it.
#[derive(Clone, Copy, Debug, PartialEq, Eq)]
pub struct BytePlaces {
    pub blob: usize,
    pub byte: usize,
    pub step: usize,
}

/// The order of the slots of an expression that lays out arrays, and the lanes of its blocks, where it has blocks. None of any other
/// expression.
pub(crate) fn array_in(expr: &MapExpr) -> Option<(Order, Option<u64>)>
    ensures { result ≡ array_of (term_of expr.now) }
{
    match expr {
        MapExpr::Soa { form: _, order } => Some((*order, None)),
        MapExpr::Aosoa { lanes, order } => Some((*order, Some(u64::from(*lanes)))),
        MapExpr::Count(inner) | MapExpr::Heat { granule: _, inner } => array_in(inner),
        _ => None,
    }
}

impl AnyMap {
    /// How many slots a mapping has that lays out arrays, at most 2^24, and how many of them a block has, at least one where there are
    /// slots. Where it has no blocks, all slots are one. None of any other mapping.
    pub fn array_slots(&self) -> Option<ArraySlots>
        ensures some { IfSome result (λ found. 0 < found.slots → 0 < found.lanes) }
        ensures value { result ≡ option_map (slots_in (extents_of self.now)) (array_of (term_of_map self.now)) }
    {
        let (order, lanes) = array_in(&self.expr)?;
        // There is a leaf, and its rule says that the slots are few.
        let _leaves = self.schema.leaf_count();
        let slots = slots_of(order, &self.extents);
        Some(ArraySlots {
            slots,
            lanes: lanes.unwrap_or(slots),
        })
    }

    /// Where the slots of a leaf lie one behind another from this one on, in a mapping that lays out arrays.
    pub fn place_of(&self, leaf: usize, slot: u64) -> BytePlace
        requires leaf_in { leaf < length (⟦<AnyMap as Mapping>⟧.cell_list self.now) }
        requires slot_in { IsSomeAnd (array_of (term_of_map self.now)) (λ array. slot < slot_count array.0 (extents_of self.now)) }
        ensures { IfSome (array_of (term_of_map self.now)) (λ array. (count : ℕ) → 0 < count → let slots = slot_count array.0 (extents_of self.now) in
            slot + count ≤ slots → slot % lanes_in array.1 slots + count ≤ lanes_in array.1 slots
            → IsArrayRun (⟦<AnyMap as Mapping>⟧.layout self.now) array.0 (extents_of self.now) leaf
            (slice_index (map (λ h. h.width) (⟦<AnyMap as Mapping>⟧.hold_list self.now)) leaf) slot count result.blob (8 * result.byte)) }
    {
        let rule = &self.leaf_rule(leaf).rule;
        let piece = rule.pieces.as_slice()[0].piece(slot);
        BytePlace {
            blob: piece.blob,
            byte: (piece.bit / 8) as usize,
        }
    }

    /// Where the slots of a leaf lie one behind another from this one on, and from each that is a multiple of `n` slots behind it, in a
    /// mapping that lays out arrays: each lies as far behind the one before it. None where that is not sure to be so.
    pub fn places_of(&self, leaf: usize, slot: u64, n: u64) -> Option<BytePlaces>
        requires leaf_in { leaf < length (⟦<AnyMap as Mapping>⟧.cell_list self.now) }
        requires slot_in { IsSomeAnd (array_of (term_of_map self.now)) (λ array. slot < slot_count array.0 (extents_of self.now)) }
        ensures { IfSome result (λ places. IfSome (array_of (term_of_map self.now)) (λ array. (k count : ℕ) → 0 < count →
            let slots = slot_count array.0 (extents_of self.now) in
            slot + k * n + count ≤ slots → (slot + k * n) % lanes_in array.1 slots + count ≤ lanes_in array.1 slots
            → IsArrayRun (⟦<AnyMap as Mapping>⟧.layout self.now) array.0 (extents_of self.now) leaf
            (slice_index (map (λ h. h.width) (⟦<AnyMap as Mapping>⟧.hold_list self.now)) leaf) (slot + k * n) count places.blob
            (8 * (places.byte + k * places.step)))) }
    {
        let rule = &self.leaf_rule(leaf).rule;
        let piece = &rule.pieces.as_slice()[0];
        let first = piece.piece(slot);
        if n % piece.lanes != 0 {
            return None;
        }
        let step = (n / piece.lanes).checked_mul(piece.block)?;
        Some(BytePlaces {
            blob: first.blob,
            byte: (first.bit / 8) as usize,
            step: (step / 8) as usize,
        })
    }
}
