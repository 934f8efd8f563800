// Values of expressions on numbers whose reads are noted.
ghost use Rattle.std.specs.Prelude.{◌≡◌, ◌<◌, ◌≤◌, fold, length};
ghost use Rattle.actors.specs.Imports.{bound_term, bound_leaves, bound_rank, outcome_of, index_at, IsBoundOver, leaf_count_of, number_in};
ghost use Rattle.actors.specs.Rows.{marked};

use expr_lang::{Bound, Row, eval};
use record_dim::Steps;
use std::marker::Brand;
use std::sync::ledger::{Blank, Ledger};
use views::{View, laws_of_table};

// The numbers of a row, and for each leaf whether it was read.
#[derive(Drop)]
struct Noted<'v> {
    values: &'v [i128],
    asked: [bool; 64],
    ghost few: { length values.now ≤ 64 },
}

impl Row for Noted<'_> {
    ghost use Rattle.std.specs.Prelude.{List, Bool};
    ghost use Rattle.actors.specs.Rows.{marked};

    ghost State = { List Bool };

    ghost numbers = { λ r. r.values.now };

    ghost state = { λ r. r.asked };

    ghost after = { marked };

    fn read<L: Ledger>(&mut self, leaf: usize, _steps: &mut Steps<L>) -> i128 {
        self.asked[leaf] = true;
        self.values[leaf]
    }
}

/// The value of an expression on a row that has these values, and 0 for a fault. What it reads is marked in `asked`.
pub fn value_at(
    view: &View,
    expr: &Bound,
    row: u64,
    values: &[i128],
    asked: &mut [bool; 64],
) -> i128
    requires over { IsBoundOver view.now expr.now }
    requires row_in { row < length view.now.rows }
    requires long { length values.now ≡ leaf_count_of view.now }
    requires few { length values.now ≤ 64 }
    ensures value { result ≡ number_in (outcome_of values.now (index_at view.now.extents row) (bound_term expr.now)).answer }
    ensures asked { asked.new ≡ fold marked asked.old (outcome_of values.now (index_at view.now.extents row) (bound_term expr.now)).reads }
{
    laws_of_table(view);
    let index = view.extents().index_of(row);
    value_noted(expr, values, index.as_slice(), asked)
}

// The same at an index.
fn value_noted(expr: &Bound, values: &[i128], index: &[u64], asked: &mut [bool; 64]) -> i128
    requires leaves { length values.now ≡ bound_leaves expr.now }
    requires few { length values.now ≤ 64 }
    requires rank { length index.now ≡ bound_rank expr.now }
    ensures value { result ≡ number_in (outcome_of values.now index.now (bound_term expr.now)).answer }
    ensures asked { asked.new ≡ fold marked asked.old (outcome_of values.now index.now (bound_term expr.now)).reads }
{
    value_counted::<Brand>(expr, values, index, asked, Blank::new(1))
}

// The same with steps that nobody sees.
fn value_counted<L: Ledger>(
    expr: &Bound,
    values: &[i128],
    index: &[u64],
    asked: &mut [bool; 64],
    blank: Blank,
) -> i128
    requires name { blank.name ≡ L.name }
    requires parts { blank.parts ≡ L.parts }
    requires some { 0 < blank.parts }
    requires leaves { length values.now ≡ bound_leaves expr.now }
    requires few { length values.now ≤ 64 }
    requires rank { length index.now ≡ bound_rank expr.now }
    ensures value { result ≡ number_in (outcome_of values.now index.now (bound_term expr.now)).answer }
    ensures asked { asked.new ≡ fold marked asked.old (outcome_of values.now index.now (bound_term expr.now)).reads }
{
    let mut steps = Steps::<L>::new(blank);
    let mut noted = Noted {
        values,
        asked: *asked,
    };
    let value = eval(expr, &mut noted, index, &mut steps);
    *asked = noted.asked;
    value.unwrap_or(0)
}
