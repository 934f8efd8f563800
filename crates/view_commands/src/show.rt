// `print V`, `counts V`, `heat V`, `layout V` and `bytes V B`.
ghost use Rattle.std.specs.Prelude.{◌≡◌, ◌++◌, All, IfOk, OnOk};
ghost use Rattle.view_commands.specs.Imports.{bits_of, IsOwnerBelow, leaf_count_of, owners_of, tells, reading, telling, print, counts, heat, layout, small, all_runs, bytes, Gives};
ghost use Rattle.instrument.specs.BlobTexts.{bytes_of, bytes_text};

use crate::work::Work;
use blobs::Blob;
use command_checks::StepFault;
use csv_rows::print_rows;
use instrument::{write_bytes, write_counts, write_heat, write_runs};
use layout_io::Sink;
use places::{Mapping, Run, RunList, laws_of};
use record_dim::Steps;
use std::alloc::{AllocError as NoMemory, Global};
use std::sync::ledger::Ledger;
use views::View;
use worlds::CommandFault;

/// The most bytes of a view whose blobs are shown.
const MAX_SHOWN_BYTES: u64 = 65_536;

/// Writes the table.
#[derive(Drop)]
pub struct Print;

impl Work for Print {
    ghost does = { λ this table. reading print table };

    fn run<K: Sink, L: Ledger>(
        &self,
        _alloc: Global,
        view: &mut View,
        out: &mut K,
        steps: &mut Steps<L>,
    ) -> Result<(), StepFault> {
        Ok(print_rows(view, out, steps)?)
    }
}

/// Writes how often each leaf was read and written.
#[derive(Drop)]
pub struct Counts;

impl Work for Counts {
    ghost does = { λ this table. telling counts table };

    fn run<K: Sink, L: Ledger>(
        &self,
        _alloc: Global,
        view: &mut View,
        out: &mut K,
        _steps: &mut Steps<L>,
    ) -> Result<(), StepFault> {
        let Some(counts) = view.counts() else {
            return Err(StepFault::Command(CommandFault::NotCounted));
        };
        Ok(write_counts(counts, view.schema(), out)?)
    }
}

/// Writes how often each granule of the blobs was accessed.
#[derive(Drop)]
pub struct Heat;

impl Work for Heat {
    ghost does = { λ this table. telling heat table };

    fn run<K: Sink, L: Ledger>(
        &self,
        _alloc: Global,
        view: &mut View,
        out: &mut K,
        _steps: &mut Steps<L>,
    ) -> Result<(), StepFault> {
        let Some(heat) = view.heat() else {
            return Err(StepFault::Command(CommandFault::NotCounted));
        };
        Ok(write_heat(heat, out)?)
    }
}

/// Writes whose the bits of the blobs are.
#[derive(Drop)]
pub struct Layout;

impl Work for Layout {
    ghost does = { λ this table. telling layout table };

    fn run<K: Sink, L: Ledger>(
        &self,
        alloc: Global,
        view: &mut View,
        out: &mut K,
        _steps: &mut Steps<L>,
    ) -> Result<(), StepFault> {
        check_small(view)?;
        let runs = all_runs(alloc, view)?;
        Ok(write_runs(&runs, view.schema(), out)?)
    }
}

/// Writes the bytes of a blob.
#[derive(Drop)]
pub struct Bytes<'a> {
    pub blob: &'a u32,
}

impl Work for Bytes<'_> {
    ghost does = { λ this table. telling (λ shown. bytes shown this.blob.now) table };

    fn run<K: Sink, L: Ledger>(
        &self,
        _alloc: Global,
        view: &mut View,
        out: &mut K,
        _steps: &mut Steps<L>,
    ) -> Result<(), StepFault> {
        let blob = shown(view, *self.blob)?;
        Ok(write_bytes(blob, out)?)
    }
}

// The blob of this number, where there is one and the view is small.
#[tactic(auto, unfolding(worlds::specs::Show::bytes))]
fn shown(view: &View, blob: u32) -> Result<&Blob, StepFault>
    ensures { Gives (λ blob. tells (bytes_text (bytes_of (bits_of blob.now)))) result (bytes view.now blob) }
{
    let blob = blob as usize;
    if view.map().blob_count() <= blob {
        return Err(StepFault::Command(CommandFault::BadIndex));
    }
    check_small(view)?;
    Ok(view.blob(blob))
}

/// That the blobs of a view are small enough to be shown.
pub fn check_small(view: &View) -> Result<(), StepFault>
    ensures { Gives (λ done. tt) result (small view.now) }
{
    if view.blob_bytes() > MAX_SHOWN_BYTES {
        return Err(StepFault::Command(CommandFault::TooBig));
    }
    Ok(())
}

// The runs of all blobs of a small view, in order.
fn all_runs(alloc: Global, view: &View) -> Result<RunList, NoMemory>
    requires { small view.now ≡ Ok tt }
    ensures runs { IfOk result (λ runs. runs ≡ all_runs (owners_of view.now)) }
    ensures leaves { IfOk result (λ runs. All (λ run. IsOwnerBelow (leaf_count_of view.now) run.owner) runs) }
{
    let map = view.map();
    laws_of(map);
    let mut runs = RunList::new(alloc);
    for blob in 0..map.blob_count() {
        let found = map.runs(alloc, blob)?;
        add_runs(&mut runs, found.as_slice())?;
    }
    Ok(runs)
}

// Puts runs behind others.
fn add_runs(runs: &mut RunList, more: &[Run]) -> Result<(), NoMemory>
    ensures { OnOk result (runs.new ≡ runs.old ++ more.now) }
{
    for run in more {
        runs.push(*run)?;
    }
    Ok(())
}
