// Weighted terms, tested and with the leaves that they read.
ghost use Rattle.std.specs.Prelude.{◌≡◌, ◌<◌, ◌≤◌, All, IfOk, true, length, map};
ghost use Rattle.command_checks.specs.Imports.{list_all, IsWindow, is_offset, is_weight, weighted, leaf_count_of, each, all_reach, all_weigh, weighted_term};
ghost use Rattle.command_checks.specs.Inner.Gives.{Gives};
ghost use Rattle.command_checks.specs.Inner.Terms.{placed_term, weighted_at};

use crate::fault::StepFault;
use crate::leaves::leaf_of;
use arrayvec::ArrayVec;
use extents::{Span, Window};
use line_grammar::TermText;
use std::alloc::{AllocError as NoMemory, Global};
use subviews::{Term, is_weight, reaches};
use views::View;

/// The leaves that terms read.
pub fn leaves_of(alloc: Global, view: &View, texts: &[TermText]) -> Result<Vec<usize>, StepFault>
    ensures terms { Gives (λ leaves. weighted_at texts.now leaves.items) result (each (weighted_term view.now.fields) texts.now) }
    ensures inside { IfOk result (λ leaves. All (λ leaf. leaf < leaf_count_of view.now) leaves.items) }
    ensures paired { IfOk result (λ leaves. length leaves.items ≡ length texts.now) }
{
    let mut leaves = Vec::new(alloc);
    for text in texts {
        let leaf = leaf_of(alloc, view, &text.path)?;
        leaves.push(leaf)?;
    }
    Ok(leaves)
}

/// Whether each term reads inside the array, from each row of a window.
pub fn all_reach(window: &Window, spans: &[Span], texts: &[TermText]) -> bool
    requires spans { window.now.1 ≡ spans.now }
    requires is { IsWindow window.now.0 window.now.1 }
    ensures { result ≡ all_reach window.now texts.now }
{
    for text in texts {
        if !reaches(window, spans, text.offsets.as_slice()) {
            return false;
        }
    }
    true
}

/// Whether each term has a weight that it may have.
pub fn all_weigh(texts: &[TermText]) -> bool
    ensures { result ≡ all_weigh texts.now }
{
    texts.iter().all(|text| is_weight(text.weight))
}

/// Terms that were tested, with the leaves that they read.
pub fn terms_at(
    alloc: Global,
    window: &Window,
    texts: &[TermText],
    leaves: &[usize],
) -> Result<Vec<Term>, NoMemory>
    requires reach { all_reach window.now texts.now ≡ true }
    requires weigh { all_weigh texts.now ≡ true }
    requires paired { length leaves.now ≡ length texts.now }
    ensures { IfOk result (λ terms. map weighted terms.items ≡ weighted_at texts.now leaves.now) }
{
    let _rank = window.extents().rank();
    let mut terms = Vec::new(alloc);
    for (place, text) in texts.iter().enumerate() {
        terms.push(term_at(text, leaves[place]))?;
    }
    Ok(terms)
}

fn term_at(text: &TermText, leaf: usize) -> Term
    requires weigh { is_weight text.now.weight ≡ true }
    requires near { list_all is_offset text.now.offsets ≡ true }
    requires ranked { length text.now.offsets ≤ 4 }
    ensures { weighted result ≡ placed_term text.now leaf }
{
    Term {
        weight: text.weight as i64,
        leaf,
        offsets: narrowed(text.offsets.as_slice()),
    }
}

// Offsets that were tested.
fn narrowed(offsets: &[i128]) -> ArrayVec<i64, 4>
    requires near { list_all is_offset offsets.now ≡ true }
    requires ranked { length offsets.now ≤ 4 }
    ensures { result.items ≡ offsets.now }
{
    let mut narrow = ArrayVec::new();
    for offset in offsets {
        narrow.push(*offset as i64);
    }
    narrow
}
