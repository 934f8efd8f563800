// An expression.
ghost use Rattle.std.specs.Prelude.{◌≡◌, OnOk};
ghost use Rattle.line_writer.specs.Imports.{term_of, operator};
ghost use Rattle.line_writer.specs.Canonical.{is_choice, needs_brackets, operand, value_tokens};
ghost use Rattle.line_writer.specs.Texts.{with_tokens_behind, written};

use crate::tokens::{push, push_index, push_number, write_path};
use expr_lang::{BinOp, Expr};
use line_grammar::{Symbol, operator};
use record_dim::Text;
use std::alloc::AllocError as NoMemory;

// It takes stack for each level of the expression.
#[cycle(value)]
#[tactic(auto, using(crate::proofs::Behind::behind_append))]
pub(crate) fn write_value(text: &mut Text, value: &Expr) -> Result<(), NoMemory>
    ensures { OnOk result (text.new ≡ with_tokens_behind text.old (value_tokens (term_of value.now))) }
{
    match value {
        Expr::Number(number) => push_number(text, *number),
        Expr::Path(path) => write_path(text, path),
        Expr::Index(dimension) => push_index(text, *dimension),
        Expr::Neg(inner) => {
            push(text, "-")?;
            write_operand(text, inner)
        }
        Expr::Not(inner) => {
            push(text, "not")?;
            write_operand(text, inner)
        }
        Expr::Binary { op, left, right } if is_choice(*op) => {
            push(text, operator_text(*op))?;
            push(text, "(")?;
            write_value(text, left)?;
            push(text, ",")?;
            write_value(text, right)?;
            push(text, ")")
        }
        Expr::Binary { op, left, right } => {
            write_operand(text, left)?;
            push(text, operator_text(*op))?;
            write_operand(text, right)
        }
    }
}

// The same in brackets, where the expression stands as an operand and needs them.
#[cycle(value)]
#[tactic(auto, using(crate::proofs::Behind::behind_append))]
fn write_operand(text: &mut Text, value: &Expr) -> Result<(), NoMemory>
    ensures { OnOk result (text.new ≡ with_tokens_behind text.old (operand (term_of value.now) (value_tokens (term_of value.now)))) }
{
    if !needs_brackets(value) {
        return write_value(text, value);
    }
    push(text, "(")?;
    write_value(text, value)?;
    push(text, ")")
}

fn needs_brackets(value: &Expr) -> bool
    ensures { result ≡ needs_brackets (term_of value.now) }
{
    match value {
        Expr::Neg(_) | Expr::Not(_) => true,
        Expr::Binary {
            op,
            left: _,
            right: _,
        } => !is_choice(*op),
        Expr::Number(_) | Expr::Path(_) | Expr::Index(_) => false,
    }
}

fn is_choice(op: BinOp) -> bool
    ensures { result ≡ is_choice op }
{
    matches!(op, BinOp::Min | BinOp::Max)
}

pub(crate) fn operator_text(op: BinOp) -> &'static str
    ensures { result.now ≡ (written (operator op)).bytes }
{
    match operator(op) {
        Symbol::Sign(sign) => sign.text(),
        Symbol::Word(word) => word,
    }
}
