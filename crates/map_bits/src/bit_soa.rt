ghost use Rattle.std.specs.Prelude.{ℕ, ◌≡◌, ◌*◌, ◌^◌, ◌<◌, ◌≤◌, ◌⊎◌, ◌↔◌, true, IfOk, IfErr, OnOk, IsErrOf, IsTrue, List, length, sum_by};
ghost use Rattle.places.specs.Prelude.{IsTooBig, narrow_holds, widths_in, Owner, bit_soa};
ghost use Rattle.places.specs.declared.piece.Cell.{Cell};
ghost use Rattle.places.specs.declared.piece.Hold.{Hold};
ghost use Rattle.map_bits.specs.Bits.{AreHolds, has_bad_width};
ghost use Rattle.map_bits.specs.BitLaws.{bit_soa_laws};

use crate::narrow::{has_bad_width, narrow_holds};
use crate::padding::padded;
use places::{
    Cell, CellList, Hold, MAX_BLOB_BITS, MAX_SLOTS, Mapping, NewMapping, PieceRule, Pieces, Ruled,
};
use record_dim::LeafType;
use std::alloc::Global;

/// A struct of arrays packed to the bit: a blob for each cell, slot after slot in at most its number of bits. Its end is padded to 64 bits.
#[derive(Drop)]
pub struct BitSoa {
    slots: u64,
    cells: Vec<Cell>,
    /// How each cell is stored.
    holds: Vec<Hold>,
    ghost held: { AreHolds cells.items holds.items },
    ghost few: { slots ≤ 2 ^ 24 },
}

/// Whether the blobs of so many slots have no more bits together than all blobs may have.
fn fit(holds: &[Hold], slots: u64) -> bool
    requires { slots ≤ 2 ^ 24 }
    ensures { IsTrue result ↔ (sum_by length (bit_soa slots (widths_in holds.now)) ≤ 8 * 2 ^ 28) }
{
    let mut bits = 0u64;
    for hold in holds {
        bits += padded(slots * u64::from(hold.width));
        if bits > MAX_BLOB_BITS {
            return false;
        }
    }
    true
}

impl BitSoa {
    /// The mapping of `slots` slots of these cells, each in at most its own number of bits. `Width` comes exactly where one is not 1 to 64,
    /// and else `TooBig` where there are more than 2^24 slots, or more than 2^28 bytes with the padding.
    pub fn new(
        alloc: Global,
        cells: &CellList,
        slots: u64,
        widths: &[u32],
    ) -> Result<BitSoa, NewMapping>
        requires { length widths.now ≡ length cells.now }
        ensures slots { IfOk result (λ m. ⟦<BitSoa as Mapping>⟧.slot_count m ≡ slots) }
        ensures cells { IfOk result (λ m. ⟦<BitSoa as Mapping>⟧.cell_list m ≡ cells.now) }
        ensures holds { IfOk result (λ m. ⟦<BitSoa as Mapping>⟧.hold_list m ≡ narrow_holds widths.now cells.now) }
        ensures layout { IfOk result (λ m. ⟦<BitSoa as Mapping>⟧.layout m ≡ bit_soa slots (widths_in (narrow_holds widths.now cells.now))) }
        ensures width { IsErrOf result NewMapping.Width ↔ (has_bad_width widths.now ≡ true) }

        // Only want of memory comes before the limits.
        ensures fits { OnOk result (IsTooBig slots (bit_soa slots (widths_in (narrow_holds widths.now cells.now))) → ⊥) }
        ensures too_big { IsErrOf result NewMapping.TooBig → IsTooBig slots (bit_soa slots (widths_in (narrow_holds widths.now cells.now))) }
        ensures only { IfErr result (λ e. (e ≡ NewMapping.Width) ⊎ ((e ≡ NewMapping.TooBig) ⊎ (e ≡ NewMapping.NoMemory))) }
    {
        if has_bad_width(widths) {
            return Err(NewMapping::Width);
        }
        if slots > MAX_SLOTS {
            return Err(NewMapping::TooBig);
        }
        let holds = narrow_holds(alloc, cells.as_slice(), widths)?;
        if !fit(&holds, slots) {
            return Err(NewMapping::TooBig);
        }
        let kept = Vec::from_slice(alloc, cells.as_slice())?;
        Ok(BitSoa {
            slots,
            cells: kept,
            holds,
        })
    }
}

impl Ruled for BitSoa {
    ghost lane_count = { λ m. 0 };

    fn rule(&self, cell: usize) -> PieceRule {
        let bits = self.holds[cell].width;
        PieceRule {
            blob: cell,
            base: 0,
            lanes: 1,
            block: u64::from(bits),
            lane: 0,
            bits,
        }
    }
}

impl Mapping for BitSoa {
    ghost layout = { λ m. bit_soa m.slots (widths_in m.holds.items) };

    ghost slot_count = { λ m. m.slots };

    ghost cell_list = { λ m. m.cells.items };

    ghost hold_list = { λ m. m.holds.items };

    fn slots(&self) -> u64 {
        self.slots
    }

    fn cells(&self) -> usize {
        self.cells.len()
    }

    fn kind(&self, cell: usize) -> LeafType {
        self.cells[cell].kind
    }

    fn hold(&self, cell: usize) -> Hold {
        self.holds[cell]
    }

    fn blob_count(&self) -> usize {
        self.cells.len()
    }

    fn blob_bytes(&self, blob: usize) -> u64 {
        padded(self.slots * u64::from(self.holds[blob].width)) / 8
    }

    fn locate(&self, slot: u64, cell: usize) -> Pieces {
        self.rule(cell).pieces(slot)
    }

    ghost laws = { λ m. bit_soa_laws m.slots (widths_in m.holds.items) m.held.low m.held.some };

    ghost holds_cells = { λ m. m.held.each };
}
