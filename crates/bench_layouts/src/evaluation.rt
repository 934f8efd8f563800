ghost use Rattle.std.specs.Prelude.{◌≡◌};
ghost use Rattle.expr_lang.specs.Prelude.{bound_leaves, bound_rank};

use crate::count::count_in;
use crate::fault::BenchFault;
use crate::formula::formula;
use crate::sample::Sample;
use expr_lang::{Bound, EvalFault, eval};
use record_dim::Steps;
use std::alloc::Global;
use std::sync::ledger::Ledger;

/// The sum of `(x * 2 + y) * z - w` over so many rows.
pub fn total<L: Ledger>(
    alloc: Global,
    words: &[String],
    steps: &mut Steps<L>,
) -> Result<i128, BenchFault> {
    let [rows] = words else {
        return Err(BenchFault::Words);
    };
    let rows = count_in(rows.as_str())?;
    let formula = formula(alloc)?;
    Ok(sum_of(&formula, rows, steps)?)
}

// The sum of the values, or the first fault. It is what is measured.
#[inline(never)]
fn sum_of<L: Ledger>(expr: &Bound, rows: u32, steps: &mut Steps<L>) -> Result<i128, EvalFault>
    requires leaves { bound_leaves expr.now ≡ 4 }
    requires rank { bound_rank expr.now ≡ 0 }
{
    let mut total = 0i128;
    for row in 0..rows {
        let value = eval(expr, &mut Sample::of_row(row), [].as_slice(), steps)?;
        total = total.checked_add(value).ok_or(EvalFault::Overflow)?;
    }
    Ok(total)
}
