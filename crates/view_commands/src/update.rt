// `update V where .. set .. = .., ..`.
ghost use Rattle.std.specs.Prelude.{◌≡◌, ◌<◌, ◌≤◌, All, IfOk, OnOk, IfSome, [], length, map, option_map, nat_eq};
ghost use Rattle.view_commands.specs.Imports.{list_any, bound_term, term_of, assignment_of, IsBoundOver, IsSetOf, setting_of, filter_term, bound_filter, bound_set, bound_sets, each_once, leaves_of, updated, Gives};
ghost use Rattle.view_commands.specs.Changes.{Changed, Gave, front_left, updated_front};
ghost use Rattle.view_commands.specs.Inner.Parts.{front_by, updated_by};

use crate::change::{Change, ChangeFault};
use crate::faults::update_fault;
use command_checks::{StepFault, bound, leaf_of};
use expr_lang::{Bound, Expr};
use line_grammar::{SetList, SetText};
use record_dim::Steps;
use row_updates::{Assign, update_rows};
use std::alloc::Global;
use std::sync::ledger::Ledger;
use views::View;

/// Stores values in each row where the filter is not 0.
#[derive(Drop)]
pub struct Update<'a> {
    pub filter: &'a Option<Expr>,
    pub sets: &'a SetList,
}

impl Change for Update<'_> {
    ghost does = { λ this table. updated table (option_map term_of this.filter.now) (map assignment_of this.sets.now) };

    ghost left = { λ this table row. front_left table row (updated_front table (option_map term_of this.filter.now) (map assignment_of this.sets.now) row) };

    fn run<L: Ledger>(
        &self,
        alloc: Global,
        view: &mut View,
        steps: &mut Steps<L>,
    ) -> Result<Option<i128>, ChangeFault> {
        updated(alloc, view, self.filter, self.sets.as_slice(), steps)
    }
}

fn updated<L: Ledger>(
    alloc: Global,
    view: &mut View,
    filter: &Option<Expr>,
    sets: &[SetText],
    steps: &mut Steps<L>,
) -> Result<Option<i128>, ChangeFault>
    ensures { Changed (updated view.old (option_map term_of filter.now) (map assignment_of sets.now))
        (λ row. front_left view.old row (updated_front view.old (option_map term_of filter.now) (map assignment_of sets.now) row)) view.old result view.new }
{
    let filter = bound_filter(alloc, view, filter)?;
    let sets = bound_sets(alloc, view, sets)?;
    each_once(view, sets.as_slice())?;
    update_all(view, filter.as_ref(), sets.as_slice(), steps)
}

// The rows after the update.
fn update_all<L: Ledger>(
    view: &mut View,
    filter: Option<&Bound>,
    sets: &[Assign],
    steps: &mut Steps<L>,
) -> Result<Option<i128>, ChangeFault>
    requires filter { IfSome filter (λ bound. IsBoundOver view.old bound.now) }
    requires sets { All (IsSetOf view.old) sets.now }
    requires few { length sets.now ≤ 64 }
    ensures { Changed (updated_by view.old (filter_term filter.entry) (map setting_of sets.now))
        (front_by view.old (filter_term filter.entry) (map setting_of sets.now)) view.old result view.new }
{
    match update_rows(view, filter, sets, steps) {
        Ok(()) => Ok(None),
        Err(fault) => Err(update_fault(fault)),
    }
}

/// The filter, where there is one.
pub fn bound_filter(
    alloc: Global,
    view: &View,
    filter: &Option<Expr>,
) -> Result<Option<Bound>, StepFault>
    ensures filter { Gives (λ filter. option_map bound_term filter) result
        (bound_filter view.now.fields (length view.now.extents) (option_map term_of filter.now)) }
    ensures over { IfOk result (λ filter. IfSome filter (IsBoundOver view.now)) }
{
    match filter {
        None => Ok(None),
        Some(filter) => {
            let filter = bound(alloc, view, filter)?;
            Ok(Some(filter))
        }
    }
}

/// The leaves that are set, and their new values.
pub fn bound_sets(alloc: Global, view: &View, sets: &[SetText]) -> Result<Vec<Assign>, StepFault>
    ensures sets { Gives (λ bound. map setting_of bound.items) result
        (bound_sets view.now.fields (length view.now.extents) (map assignment_of sets.now)) }
    ensures over { IfOk result (λ bound. All (IsSetOf view.now) bound.items) }
{
    let mut bound = Vec::new(alloc);
    for set in sets {
        let set = bound_set(alloc, view, set)?;
        bound.push(set)?;
    }
    Ok(bound)
}

fn bound_set(alloc: Global, view: &View, set: &SetText) -> Result<Assign, StepFault>
    ensures set { Gives setting_of result (bound_set view.now.fields (length view.now.extents) (assignment_of set.now)) }
    ensures over { IfOk result (IsSetOf view.now) }
{
    let leaf = leaf_of(alloc, view, &set.path)?;
    let value = bound(alloc, view, &set.value)?;
    Ok(Assign { leaf, value })
}

/// That no leaf is set a second time.
pub fn each_once(view: &View, sets: &[Assign]) -> Result<(), ChangeFault>
    requires { All (IsSetOf view.now) sets.now }
    ensures once { Gave view.now.fields (λ done. tt) result (each_once view.now.fields [] (leaves_of (map setting_of sets.now))) }
    ensures few { OnOk result (length sets.now ≤ 64) }
{
    let _leaves = view.schema().leaf_count();
    for (place, set) in sets.iter().enumerate() {
        if is_set(&sets[..place], set.leaf) {
            return Err(ChangeFault::Twice { leaf: set.leaf });
        }
    }
    Ok(())
}

// Whether the leaf is set.
fn is_set(sets: &[Assign], leaf: usize) -> bool
    ensures { result ≡ list_any (λ set. nat_eq leaf set.leaf) sets.now }
{
    sets.iter().any(|set| leaf == set.leaf)
}
