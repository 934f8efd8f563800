ghost use Rattle.std.specs.Prelude.{◌≡◌, ◌<◌};

use crate::fault::BenchFault;
use crate::{copying, evaluation, kernels, table};
use record_dim::Steps;
use std::alloc::Global;
use std::sync::ledger::{Blank, Ledger};

/// A number that is right only where all of the work was done that the words name.
pub fn checksum<L: Ledger>(
    alloc: Global,
    words: &[String],
    blank: Blank,
) -> Result<i128, BenchFault>
    requires name { blank.name ≡ L.name }
    requires parts { blank.parts ≡ L.parts }
    requires some { 0 < blank.parts }
{
    let [mode, behind @ ..] = words else {
        return Err(BenchFault::Words);
    };
    let mut steps = Steps::<L>::new(blank);
    match mode.as_str() {
        "eval" => evaluation::total(alloc, behind, &mut steps),
        "table" => table::sum(alloc, behind, &mut steps),
        "copy" => copying::sum(alloc, behind, &mut steps),
        "kernel" => kernels::sum(alloc, behind, &mut steps),
        _ => Err(BenchFault::Words),
    }
}
