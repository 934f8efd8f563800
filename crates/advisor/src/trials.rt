// Ways of storing leaves, each tried with the values of all rows.
ghost use Rattle.std.specs.Prelude.{ℕ, ◌&&◌, ◌||◌, ◌==◌, ◌≡◌, ◌<◌, All, true, not, IfOk, OnOk, length, map};
ghost use Rattle.advisor.specs.Imports.{leaves, schema_fields, raised, is_between};
ghost use Rattle.advisor.specs.Inner.SideCosts.{IsHold};
ghost use Rattle.advisor.specs.Suits.{stays};
ghost use Rattle.advisor.specs.Inner.Trials.{IsTrial, IsFresh, has_trial, HasTrials, low_stays, all_lows_stay, tried_leaf, has_not_failed, none_failed};

use crate::candidate::Candidate;
use map_checks::hold_at;
use piece_bits::{StoreMode, kept};
use places::Hold;
use record_dim::{LeafType, Schema};
use std::alloc::{AllocError as NoMemory, Global};
use views::raised;

/// A way of storing a leaf of a type, and whether all its values so far stay in it.
#[derive(Clone, Copy)]
pub struct Trial {
    pub leaf: usize,
    pub kind: LeafType,
    pub hold: Hold,
    pub stays: bool,
}

/// The different ways in which candidates store the leaves of a schema. No value was tried yet.
pub fn trials_of(alloc: Global, schema: &Schema, pool: &[Candidate]) -> Result<Vec<Trial>, NoMemory>
    requires each { All (λ candidate. length candidate.holds ≡ length (leaves (schema_fields schema.now))) pool.now }
    requires holds { All (λ candidate. All IsHold candidate.holds) pool.now }
    ensures trials { IfOk result (λ trials. All (IsTrial (schema_fields schema.now)) trials.items) }
    ensures fresh { IfOk result (λ trials. All IsFresh trials.items) }
    ensures all { IfOk result (λ trials. All (λ candidate. HasTrials trials.items candidate.holds (length candidate.holds)) pool.now) }
{
    let mut trials = Vec::new(alloc);
    for at in 0..pool.len() {
        push_trials(schema, pool[at].holds.as_slice(), &mut trials)?;
    }
    Ok(trials)
}

// Puts those of one candidate behind others, but for ways that are there.
fn push_trials(schema: &Schema, holds: &[Hold], trials: &mut Vec<Trial>) -> Result<(), NoMemory>
    requires each { length holds.now ≡ length (leaves (schema_fields schema.now)) }
    requires holds { All IsHold holds.now }
    requires trials { All (IsTrial (schema_fields schema.now)) trials.old.items }
    requires fresh { All IsFresh trials.old.items }
    ensures trials { OnOk result (All (IsTrial (schema_fields schema.now)) trials.new.items) }
    ensures fresh { OnOk result (All IsFresh trials.new.items) }
    ensures kept { (leaf : ℕ) (hold : Hold) → has_trial trials.old.items leaf hold ≡ true → has_trial trials.new.items leaf hold ≡ true }
    ensures all { OnOk result (HasTrials trials.new.items holds.now (length holds.now)) }
{
    for leaf in 0..holds.len() {
        let hold = hold_at(holds, leaf);
        if !has_trial(trials.as_slice(), leaf, hold) {
            trials.push(Trial {
                leaf,
                kind: schema.leaf_type(leaf),
                hold,
                stays: true,
            })?;
        }
    }
    Ok(())
}

// Whether one of some trials is of this way of storing a leaf.
fn has_trial(trials: &[Trial], leaf: usize, hold: Hold) -> bool
    ensures { result ≡ has_trial trials.now leaf hold }
{
    trials
        .iter()
        .any(|trial| trial.leaf == leaf && trial.hold == hold)
}

/// Tries values of a leaf in the ways of storing it. They are given by their low 64 bits, read with a sign.
pub fn try_leaf(mode: StoreMode, leaf: usize, lows: &[i64], trials: &mut [Trial])
    requires { All (λ trial. IsHold trial.hold) trials.old }
    ensures { trials.new ≡ map (tried_leaf mode leaf lows.now) trials.old }
{
    for trial in trials.iter_mut() {
        trial.stays = still_stays(mode, leaf, *trial, lows);
    }
}

// Whether these values stay too, where they are of its leaf.
fn still_stays(mode: StoreMode, leaf: usize, trial: Trial, lows: &[i64]) -> bool
    requires { IsHold trial.hold }
    ensures { result ≡ (trial.stays && (not (trial.leaf == leaf) || all_lows_stay mode trial lows.now)) }
{
    trial.stays && (trial.leaf != leaf || all_stay(mode, trial, lows))
}

fn all_stay(mode: StoreMode, trial: Trial, lows: &[i64]) -> bool
    requires { IsHold trial.hold }
    ensures { result ≡ all_lows_stay mode trial lows.now }
{
    lows.iter().all(|low| low_stays(mode, trial, *low))
}

fn low_stays(mode: StoreMode, trial: Trial, low: i64) -> bool
    requires { IsHold trial.hold }
    ensures { result ≡ low_stays mode trial low }
{
    stays(mode, trial.kind, trial.hold, raised(trial.kind, low))
}

// Whether a store of a value in a leaf that is stored so would keep the value.
fn stays(mode: StoreMode, kind: LeafType, hold: Hold, value: i128) -> bool
    requires { IsHold hold }
    ensures { result ≡ stays mode kind hold value }
{
    match mode {
        StoreMode::Strict => {
            is_between(kind.least(), kind.greatest(), value)
                && is_between(hold.least(), hold.greatest(), value)
        }
        StoreMode::Wrap => kept(kind, hold, value) == value,
    }
}

fn is_between(least: i128, greatest: i128, value: i128) -> bool
    ensures { result ≡ is_between least greatest value }
{
    least <= value && value <= greatest
}

/// Whether no way in which these leaves are stored failed.
pub fn none_failed(trials: &[Trial], holds: &[Hold]) -> bool
    requires { All (λ trial. trial.leaf < length holds.now) trials.now }
    ensures { result ≡ none_failed holds.now trials.now }
{
    trials.iter().all(|trial| has_not_failed(*trial, holds))
}

// Whether values stay, or these leaves are stored in another way.
fn has_not_failed(trial: Trial, holds: &[Hold]) -> bool
    requires { trial.leaf < length holds.now }
    ensures { result ≡ has_not_failed holds.now trial }
{
    trial.stays || trial.hold != hold_at(holds, trial.leaf)
}
