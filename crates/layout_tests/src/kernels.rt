// Kernels by lanes: the steps that one takes at most, and what is read of a block in which a row is refused. No run sees a counter of
// steps, so a bound on them is a clause of a function that a test calls; and after a refusal no run sees what was read.
ghost use Rattle.std.specs.Prelude.{◌≡◌, ◌+◌, ◌<◌, ◌≤◌, IsTrue, length};
ghost use Rattle.views.specs.Prelude.{IsNarrowLeaf};

use crate::tables::{aos, number, set, view_of};
use lane_kernels::{Kernel, KernelFault, run_lanes};
use map_any::MapExpr;
use places::AosForm;
use record_dim::{LeafType, Steps};
use std::alloc::Global;
use std::marker::Brand;
use std::sync::ledger::{Blank, Ledger};
use std::test::Fail;
use views::View;

// What a kernel answers.
type Answer = Result<Option<i64>, KernelFault>;

// Whether a view has a leaf of this number, of at most 32 bits.
fn is_narrow(view: &View, leaf: usize) -> bool
    ensures { IsTrue result → IsNarrowLeaf view.now leaf }
{
    let schema = view.schema();
    leaf < schema.leaf_count() && schema.leaf_type(leaf).width() <= 32
}

// The sum of the first leaf over 1,000 rows by 16 lanes: a step for each of 62 blocks and of 8 rows, and at most 16 more.
fn sum_by_lanes<L: Ledger>(view: &mut View, steps: &mut Steps<L>) -> Answer
    requires leaf { IsNarrowLeaf view.old 0 }
    requires rows { length view.old.rows ≡ 1000 }
    ensures { steps.new ≤ steps.old + 86 }
{
    run_lanes(view, &Kernel::Sum { x: 0 }, 16, steps)
}

// The sum of a view that gets its numbers, if it has so many rows.
fn summed<L: Ledger>(view: &mut View, steps: &mut Steps<L>) -> Result<Option<Answer>, Fail> {
    number(view, steps)?;
    if view.extents().count() != 1000 || !is_narrow(view, 0) {
        return Ok(None);
    }
    Ok(Some(sum_by_lanes(view, steps)))
}

fn sum_of_numbers<L: Ledger>(alloc: Global, blank: Blank) -> Result<Option<Answer>, Fail>
    requires name { blank.name ≡ L.name }
    requires parts { blank.parts ≡ L.parts }
    requires some { 0 < blank.parts }
{
    let mut steps = Steps::<L>::new(blank);
    let mut view = view_of(alloc, &[LeafType::U16], 1000, &aos(AosForm::Packed))?;
    let sum = summed(&mut view, &mut steps);
    drop(view);
    sum
}

#[test]
fn a_sum_over_1000_rows_by_16_lanes_takes_at_most_86_steps(rt: HostRuntime) -> Result<(), Fail> {
    let sum = sum_of_numbers::<Brand>(rt.alloc(), Blank::new(1))?;
    assert!(rt; sum == Some(Ok(Some(500500))));
    Ok(())
}

// Adds the first leaf to the second in each row, by so many lanes.
fn added<L: Ledger>(view: &mut View, lanes: usize, steps: &mut Steps<L>) -> Option<Answer> {
    if is_narrow(view, 0) && is_narrow(view, 1) && 1 <= lanes && lanes <= 16 {
        let kernel = Kernel::Axpy { a: 1, x: 0, y: 1 };
        return Some(run_lanes(view, &kernel, lanes, steps));
    }
    None
}

// 22 rows of a number from 0 to 255 and one from -128 to 127, all 0 but for a 200 in one row that the second does not take.
fn refusing<L: Ledger>(alloc: Global, row: u64, steps: &mut Steps<L>) -> Result<View, Fail> {
    let inner = Box::new(alloc, aos(AosForm::Packed))?;
    let kinds = [LeafType::U8, LeafType::I8];
    let mut view = view_of(alloc, &kinds, 22, &MapExpr::Count(inner))?;
    set(&mut view, row, 200, steps)?;
    Ok(view)
}

// Whether a leaf was read and written so often.
fn has_counted(view: &View, leaf: usize, reads: u64, writes: u64) -> bool {
    let Some(counts) = view.counts() else {
        return false;
    };
    leaf < view.schema().leaf_count()
        && counts.reads(leaf) == reads
        && counts.writes(leaf) == writes
}

// Whether the addition by so many lanes is refused in a row, after so many reads of each leaf and a write of the second in each row before
// it. The write that made the row counts too.
fn is_refused<L: Ledger>(
    view: &mut View,
    row: u64,
    lanes: usize,
    reads: u64,
    steps: &mut Steps<L>,
) -> bool {
    let refused = added(view, lanes, steps) == Some(Err(KernelFault::Range { row, leaf: 1 }));
    refused && has_counted(view, 0, reads, 1) && has_counted(view, 1, reads, row)
}

fn reads_so<L: Ledger>(
    alloc: Global,
    row: u64,
    lanes: usize,
    reads: u64,
    blank: Blank,
) -> Result<bool, Fail>
    requires name { blank.name ≡ L.name }
    requires parts { blank.parts ≡ L.parts }
    requires some { 0 < blank.parts }
{
    let mut steps = Steps::<L>::new(blank);
    let mut view = refusing(alloc, row, &mut steps)?;
    let is_so = is_refused(&mut view, row, lanes, reads, &mut steps);
    drop(view);
    Ok(is_so)
}

// A row that is refused, the lanes, and the reads of each leaf.
const READS: [(u64, usize, u64); 10] = [
    (9, 1, 10),
    (9, 2, 10),
    (9, 4, 12),
    (9, 8, 16),
    (9, 16, 16),
    (20, 1, 21),
    (20, 2, 22),
    (20, 4, 21),
    (20, 8, 21),
    (20, 16, 21),
];

// Whole blocks are read, from row 0 on; behind the last one row after row.
#[test]
fn the_block_of_a_refused_row_is_read_to_its_end(rt: HostRuntime) -> Result<(), Fail> {
    for (row, lanes, reads) in READS {
        assert!(rt; reads_so::<Brand>(rt.alloc(), row, lanes, reads, Blank::new(1))?);
    }
    Ok(())
}
