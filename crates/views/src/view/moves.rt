// Tables that are moved from view to view, with no look at their numbers.
ghost use Rattle.std.specs.Prelude.{◌≡◌, ◌+◌, ◌*◌, ◌<◌, ◌≤◌, IfSome, length};
ghost use Rattle.views.specs.Imports.{blocks, uncounted, array_of, AreRuns};
ghost use Rattle.views.specs.Moves.{blob_steps, size_of, IsInBlock, IsRunMoved, MayMove};

use super::View;
use crate::moves::{move_all, move_between};
use record_dim::Steps;
use std::sync::ledger::Ledger;

impl View {
    ghost use Rattle.views.specs.Tables.{leaf_count_of, leaf_type_of, leaf_types_of, owners_of, table_holds};

    /// Makes the table that of `source`, which has the same leaves and extents, blob by blob: both are of one expression, counters left
    /// out, and a strict view takes none of a view that keeps low bits unless each leaf is stored in the sign and width of its type. It
    /// takes a step for each 64 bytes of a blob, and one for its rest. Nothing is counted.
    pub fn move_blobs<L: Ledger>(&mut self, source: &View, steps: &mut Steps<L>)
        requires blobs { uncounted self.old.mapping ≡ uncounted source.now.mapping }
        requires alike { (self.old.fields ≡ source.now.fields) × (self.old.extents ≡ source.now.extents) }
        requires modes { MayMove source.now.mode self.old.mode (leaf_types_of self.old) (table_holds self.old) }
        ensures rows { self.new ≡ record self.old { rows = source.now.rows } }
        ensures steps { steps.new ≤ steps.old + blob_steps (owners_of self.old) }
    {
        move_all(&mut self.blobs, source.blobs.as_slice(), steps);
    }

    /// Makes the entries of a leaf in the rows of `n` slots, from this one on, those of `source`, which has the same leaves and extents:
    /// both lay out arrays whose slots are in one order, and the slots lie in one block of each. It takes a step for each 64 bytes, and
    /// one for the rest. Nothing is counted.
    pub fn move_run<L: Ledger>(
        &mut self,
        leaf: usize,
        slot: u64,
        n: u64,
        source: &View,
        steps: &mut Steps<L>,
    )
        requires leaf_in { leaf < leaf_count_of self.old }
        requires arrays { AreRuns self.old.mapping source.now.mapping }
        requires alike { (self.old.fields ≡ source.now.fields) × (self.old.extents ≡ source.now.extents) }
        requires block { IsInBlock self.old.mapping self.old.extents slot n }
        requires other_block { IsInBlock source.now.mapping source.now.extents slot n }
        ensures same { self.new ≡ record self.old { rows = self.new.rows } }
        ensures moved { IfSome (array_of self.old.mapping) (λ array. IsRunMoved array.0 self.old.extents (length self.old.rows) (leaf_count_of self.old)
            leaf slot n source.now.rows self.old.rows self.new.rows) }
        ensures steps { steps.new ≤ steps.old + blocks (n * size_of (leaf_type_of self.old leaf)) }
    {
        if n == 0 {
            return;
        }
        let to = self.map.place_of(leaf, slot);
        let from = source.map.place_of(leaf, slot);
        let bytes = n as usize * (self.schema.leaf_type(leaf).width() / 8) as usize;
        move_between(
            &mut self.blobs,
            to.blob,
            to.byte,
            source.blobs.as_slice(),
            from.blob,
            from.byte,
            bytes,
            steps,
        );
    }
}
