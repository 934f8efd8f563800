ghost use Rattle.std.specs.Prelude.{◌≡◌, ◌↔◌, IfOk, IsTrue};

use record_dim::{Path, PathStep, Sequence};
use std::alloc::{AllocError as NoMemory, Global};

/// The most bits of each cell whose leaf is under a path.
#[derive(Drop)]
pub struct FieldWidth {
    pub path: Path,
    pub width: u32,
}

/// The widths of chosen leaves, in the order of the text.
pub type WidthList = Sequence<FieldWidth>;

/// Equal widths.
pub(crate) fn copy_widths(alloc: Global, fields: &WidthList) -> Result<WidthList, NoMemory>
    ensures { IfOk result (λ copy. copy ≡ fields.now) }
{
    let mut copied = WidthList::new(alloc);
    for entry in fields.as_slice() {
        copied.push(copy_width(alloc, entry)?)?;
    }
    Ok(copied)
}

fn copy_width(alloc: Global, entry: &FieldWidth) -> Result<FieldWidth, NoMemory>
    ensures { IfOk result (λ copy. copy ≡ entry.now) }
{
    let path = entry.path.copy(alloc)?;
    Ok(FieldWidth {
        path,
        width: entry.width,
    })
}

/// Whether two lists of widths are one.
pub(crate) fn same_widths(fields: &[FieldWidth], others: &[FieldWidth]) -> bool
    ensures { IsTrue result ↔ (fields.now ≡ others.now) }
{
    match (fields, others) {
        ([], []) => true,
        ([entry, rest @ ..], [other, more @ ..]) => {
            same_width(entry, other) && same_widths(rest, more)
        }
        _ => false,
    }
}

fn same_width(entry: &FieldWidth, other: &FieldWidth) -> bool
    ensures { IsTrue result ↔ (entry.now ≡ other.now) }
{
    entry.width == other.width && same_steps(entry.path.as_slice(), other.path.as_slice())
}

/// Whether two paths have the same steps.
pub(crate) fn same_steps(steps: &[PathStep], others: &[PathStep]) -> bool
    ensures { IsTrue result ↔ (steps.now ≡ others.now) }
{
    match (steps, others) {
        ([], []) => true,
        ([step, rest @ ..], [other, more @ ..]) => same_step(step, other) && same_steps(rest, more),
        _ => false,
    }
}

fn same_step(step: &PathStep, other: &PathStep) -> bool
    ensures { IsTrue result ↔ (step.now ≡ other.now) }
{
    match (step, other) {
        (PathStep::Name(name), PathStep::Name(other)) => name == other,
        (PathStep::At(number), PathStep::At(other)) => number == other,
        _ => false,
    }
}
