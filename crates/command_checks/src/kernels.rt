// Kernels that can run on a view.
ghost use Rattle.std.specs.Prelude.{◌≡◌, ◌≤◌, ◌≤ℤ◌, ◌<ℤ◌, ◌^◌, ◌<◌, IfOk, OnOk, true, false, pos, neg_ℤ};
ghost use Rattle.command_checks.specs.Imports.{schema_fields, IsFactor, IsKernelOf, IsNarrow, IsNarrowLeaf, leaf_count_of, are_bounds, are_lanes, compare_of, fit_kernel, fit_leaf, fits, is_constant, is_factor, is_wide};
ghost use Rattle.command_checks.specs.Inner.Gives.{Gives};

use crate::fault::StepFault;
use crate::leaves::leaf_of;
use expr_lang::BinOp;
use lane_kernels::{Compare, Kernel};
use line_grammar::KernelText;
use record_dim::Path;
use std::alloc::Global;
use views::View;
use worlds::{BadKernel, CommandFault};

/// The most bits of the type of a leaf.
const MAX_LEAF_BITS: u32 = 32;

/// The least constant.
const LEAST: i128 = -(1 << 31);

/// Factors lie below this number, and other constants below the other one.
const FACTORS: i128 = 1 << 31;

const CONSTANTS: i128 = 1 << 32;

/// The kernel of a text, with the numbers of its leaves, to be run in blocks of so many lanes.
pub fn fit_kernel(
    alloc: Global,
    view: &View,
    text: &KernelText,
    lanes: u32,
) -> Result<Kernel, StepFault>
    ensures fit { Gives (λ kernel. kernel) result (fit_kernel view.now.fields text.now lanes) }
    ensures able { IfOk result (IsKernelOf view.now) }
    ensures lanes { OnOk result ((1 ≤ lanes) × (lanes ≤ 16)) }
{
    match text {
        KernelText::Axpy { a, x, y } => fit_axpy(alloc, view, *a, x, y, lanes),
        KernelText::Clamp { x, lo, hi } => {
            let x = fit_leaf(alloc, view, x, lanes, are_bounds(*lo, *hi))?;
            let (lo, hi) = (narrowed(*lo), narrowed(*hi));
            Ok(Kernel::Clamp { x, lo, hi })
        }
        KernelText::Sum(x) => {
            let x = fit_leaf(alloc, view, x, lanes, true)?;
            Ok(Kernel::Sum { x })
        }
        KernelText::Least(x) => {
            let x = fit_leaf(alloc, view, x, lanes, true)?;
            Ok(Kernel::Least { x })
        }
        KernelText::Greatest(x) => {
            let x = fit_leaf(alloc, view, x, lanes, true)?;
            Ok(Kernel::Greatest { x })
        }
        KernelText::CountWhere { x, op, c } => {
            let x = fit_leaf(alloc, view, x, lanes, is_constant(*c))?;
            let (op, c) = (compare_of(*op), narrowed(*c));
            Ok(Kernel::CountWhere { x, op, c })
        }
    }
}

// The kernel that adds a multiple of one leaf to another.
fn fit_axpy(
    alloc: Global,
    view: &View,
    a: i128,
    x: &Path,
    y: &Path,
    lanes: u32,
) -> Result<Kernel, StepFault>
    ensures fit { Gives (λ kernel. kernel) result (fit_kernel view.now.fields (KernelText.Axpy a x.now y.now) lanes) }
    ensures able { IfOk result (IsKernelOf view.now) }
    ensures lanes { OnOk result ((1 ≤ lanes) × (lanes ≤ 16)) }
{
    let x = leaf_of(alloc, view, x)?;
    let y = leaf_of(alloc, view, y)?;
    fits(lanes, is_wide(view, x) || is_wide(view, y), is_factor(a))?;
    let a = narrowed(a);
    Ok(Kernel::Axpy { a, x, y })
}

// The one leaf of a kernel.
fn fit_leaf(
    alloc: Global,
    view: &View,
    path: &Path,
    lanes: u32,
    constants: bool,
) -> Result<usize, StepFault>
    ensures leaf { Gives (λ leaf. leaf) result (fit_leaf view.now.fields path.now lanes constants) }
    ensures narrow { IfOk result (IsNarrowLeaf view.now) }
    ensures lanes { OnOk result ((1 ≤ lanes) × (lanes ≤ 16)) }
    ensures constants { OnOk result (constants ≡ true) }
{
    let leaf = leaf_of(alloc, view, path)?;
    fits(lanes, is_wide(view, leaf), constants)?;
    Ok(leaf)
}

// That no cause of three refuses a kernel.
fn fits(lanes: u32, wide: bool, constants: bool) -> Result<(), StepFault>
    ensures fits { Gives (λ done. tt) result (fits lanes wide constants) }
    ensures lanes { OnOk result ((1 ≤ lanes) × (lanes ≤ 16)) }
    ensures narrow { OnOk result (wide ≡ false) }
    ensures constants { OnOk result (constants ≡ true) }
{
    if !are_lanes(lanes) {
        return Err(StepFault::Command(CommandFault::BadKernel(BadKernel::Lanes)));
    }
    if wide {
        return Err(StepFault::Command(CommandFault::BadKernel(BadKernel::Wide)));
    }
    if !constants {
        return Err(StepFault::Command(CommandFault::BadKernel(BadKernel::Constant)));
    }
    Ok(())
}

fn are_lanes(lanes: u32) -> bool
    ensures lanes { result ≡ are_lanes lanes }
    ensures range { result ≡ true → (1 ≤ lanes) × (lanes ≤ 16) }
{
    matches!(lanes, 1 | 2 | 4 | 8 | 16)
}

// Whether the type of a leaf has too many bits.
fn is_wide(view: &View, leaf: usize) -> bool
    requires { leaf < leaf_count_of view.now }
    ensures wide { result ≡ is_wide view.now.fields leaf }
    ensures narrow { result ≡ false → IsNarrowLeaf view.now leaf }
{
    view.schema().leaf_type(leaf).width() > MAX_LEAF_BITS
}

fn is_factor(a: i128) -> bool
    ensures factor { result ≡ is_factor a }
    ensures range { result ≡ true → IsFactor a }
{
    LEAST <= a && a < FACTORS
}

fn is_constant(c: i128) -> bool
    ensures constant { result ≡ is_constant c }
    ensures range { result ≡ true → IsNarrow c }
{
    LEAST <= c && c < CONSTANTS
}

fn are_bounds(lo: i128, hi: i128) -> bool
    ensures bounds { result ≡ are_bounds lo hi }
    ensures range { result ≡ true → IsNarrow lo × IsNarrow hi × (lo ≤ℤ hi) }
{
    is_constant(lo) && is_constant(hi) && lo <= hi
}

// A constant that was tested.
fn narrowed(c: i128) -> i64
    requires { IsNarrow c }
    ensures { result ≡ c }
{
    c as i64
}

// The comparison of a sign. No other operator stands in a kernel.
fn compare_of(op: BinOp) -> Compare
    ensures { result ≡ compare_of op }
{
    match op {
        BinOp::Ne => Compare::Ne,
        BinOp::Lt => Compare::Lt,
        BinOp::Le => Compare::Le,
        BinOp::Gt => Compare::Gt,
        BinOp::Ge => Compare::Ge,
        _ => Compare::Eq,
    }
}
