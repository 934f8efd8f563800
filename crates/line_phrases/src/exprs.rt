ghost use Rattle.std.specs.Prelude.{◌≡◌, ◌<◌, ◌≤◌};
ghost use Rattle.line_phrases.specs.Imports.{length, OnOk, IfOk, IfErr, term_of, Binary, Neg, Not, Minus, Word, Signed, wrapped, read, atom_within, bracketed, choice, comparison, conjunction, expr, expr_over, leaf, negation, product, signs, sum, unary, codes, zero};
ghost use Rattle.line_phrases.specs.Inner.Gives.{Gives, IsSyntax};
ghost use Rattle.line_phrases.specs.Inner.Exprs.{behind_left, boxed_term, left_term};

use crate::{ReadError, Tokens, read_path};
use expr_lang::{BinOp, Expr};
use line_grammar::{Choice, Comparison, Conjunction, Disjunction, Index, Number, Product, Sum};
use line_tokens::Sign;
use std::alloc::{AllocError as NoMemory, Global};

/// The expression at the front. Chains are walked by loops, so only brackets take stack; a level calls the next one at one place where it
/// can, so that the compiler makes one frame of several.
#[tactic(auto, unfolding(line_grammar::specs::Language::expr))]
pub fn read_expr(alloc: Global, tokens: &mut Tokens) -> Result<Expr, ReadError>
    ensures gives { Gives (λ x. (term_of x, tokens.new)) result (read expr tokens.old) }
    ensures shorter { OnOk result (length tokens.new < length tokens.old) }
{
    let boxed = read_boxed(alloc, tokens.len(), tokens)?;
    Ok(Box::into_inner(boxed))
}

// Its brackets nest at most `room` deep.
#[cycle(expr)]
#[tactic(auto, unfolding(line_grammar::specs::Language::expr_over, line_grammar::specs::Language::chain, crate::specs::Inner::Exprs::chain_behind), using(crate::proofs::Links::link_steps))]
fn read_boxed(alloc: Global, room: usize, tokens: &mut Tokens) -> Result<Box<Expr>, ReadError>
    ensures gives { Gives (λ x. (boxed_term x, tokens.new)) result (read (expr_over (atom_within room)) tokens.old) }
    ensures shorter { OnOk result (length tokens.new < length tokens.old) }
{
    let mut waiting = None;
    loop {
        let right = read_conjunction(alloc, room, tokens)?;
        let value = joined(alloc, waiting, right)?;
        if !tokens.begins::<Disjunction>() {
            return Ok(value);
        }
        let op = tokens.item::<Disjunction>()?;
        waiting = Some((value, op));
    }
}

// `and` between negations.
#[cycle(expr)]
#[tactic(auto, unfolding(line_grammar::specs::Language::conjunction, line_grammar::specs::Language::chain, crate::specs::Inner::Exprs::chain_behind), using(crate::proofs::Links::link_steps))]
fn read_conjunction(alloc: Global, room: usize, tokens: &mut Tokens) -> Result<Box<Expr>, ReadError>
    ensures gives { Gives (λ x. (boxed_term x, tokens.new)) result (read (conjunction (atom_within room)) tokens.old) }
    ensures shorter { OnOk result (length tokens.new < length tokens.old) }
{
    let mut waiting = None;
    loop {
        let right = read_negation(alloc, room, tokens)?;
        let value = joined(alloc, waiting, right)?;
        if !tokens.begins::<Conjunction>() {
            return Ok(value);
        }
        let op = tokens.item::<Conjunction>()?;
        waiting = Some((value, op));
    }
}

// `not` in front of a comparison, any number of times.
#[cycle(expr)]
#[tactic(auto, unfolding(line_grammar::specs::Language::negation, line_grammar::specs::Language::prefixed))]
fn read_negation(alloc: Global, room: usize, tokens: &mut Tokens) -> Result<Box<Expr>, ReadError>
    ensures gives { Gives (λ x. (boxed_term x, tokens.new)) result (read (negation (atom_within room)) tokens.old) }
    ensures shorter { OnOk result (length tokens.new < length tokens.old) }
{
    let count = count_words(tokens)?;
    let inner = read_comparison(alloc, room, tokens)?;
    let value = negated(alloc, count, inner)?;
    Ok(value)
}

// Two sums and a comparison between them, or one sum.
#[cycle(expr)]
#[tactic(auto, unfolding(line_grammar::specs::Language::comparison))]
fn read_comparison(alloc: Global, room: usize, tokens: &mut Tokens) -> Result<Box<Expr>, ReadError>
    ensures gives { Gives (λ x. (boxed_term x, tokens.new)) result (read (comparison (atom_within room)) tokens.old) }
    ensures shorter { OnOk result (length tokens.new < length tokens.old) }
{
    let left = read_sum(alloc, room, tokens)?;
    if !tokens.begins::<Comparison>() {
        return Ok(left);
    }
    let op = tokens.item::<Comparison>()?;
    let right = read_sum(alloc, room, tokens)?;
    let value = binary(alloc, op, left, right)?;
    Ok(value)
}

// `+` and `-` between products.
#[cycle(expr)]
#[tactic(auto, unfolding(line_grammar::specs::Language::sum, line_grammar::specs::Language::chain, crate::specs::Inner::Exprs::chain_behind), using(crate::proofs::Links::link_steps))]
fn read_sum(alloc: Global, room: usize, tokens: &mut Tokens) -> Result<Box<Expr>, ReadError>
    ensures gives { Gives (λ x. (boxed_term x, tokens.new)) result (read (sum (atom_within room)) tokens.old) }
    ensures shorter { OnOk result (length tokens.new < length tokens.old) }
{
    let mut waiting = None;
    loop {
        let right = read_product(alloc, room, tokens)?;
        let value = joined(alloc, waiting, right)?;
        if !tokens.begins::<Sum>() {
            return Ok(value);
        }
        let op = tokens.item::<Sum>()?;
        waiting = Some((value, op));
    }
}

// `*`, `/` and `%` between operands.
#[cycle(expr)]
#[tactic(auto, unfolding(line_grammar::specs::Language::product, line_grammar::specs::Language::chain, crate::specs::Inner::Exprs::chain_behind), using(crate::proofs::Links::link_steps))]
fn read_product(alloc: Global, room: usize, tokens: &mut Tokens) -> Result<Box<Expr>, ReadError>
    ensures gives { Gives (λ x. (boxed_term x, tokens.new)) result (read (product (atom_within room)) tokens.old) }
    ensures shorter { OnOk result (length tokens.new < length tokens.old) }
{
    let mut waiting = None;
    loop {
        let right = read_unary(alloc, room, tokens)?;
        let value = joined(alloc, waiting, right)?;
        if !tokens.begins::<Product>() {
            return Ok(value);
        }
        let op = tokens.item::<Product>()?;
        waiting = Some((value, op));
    }
}

// `-` in front of an operand, any number of times.
#[cycle(expr)]
#[tactic(auto, unfolding(line_grammar::specs::Language::unary, line_grammar::specs::Language::prefixed))]
fn read_unary(alloc: Global, room: usize, tokens: &mut Tokens) -> Result<Box<Expr>, ReadError>
    ensures gives { Gives (λ x. (boxed_term x, tokens.new)) result (read (unary (atom_within room)) tokens.old) }
    ensures shorter { OnOk result (length tokens.new < length tokens.old) }
{
    let count = count_signs(tokens)?;
    let inner = read_atom(alloc, room, tokens)?;
    let value = negative(alloc, count, inner)?;
    Ok(value)
}

// An operand without an operator of its own.
#[cycle(expr)]
#[tactic(auto, unfolding(line_grammar::specs::Language::atom_within, line_grammar::specs::Language::bracketed, line_grammar::specs::Language::choice))]
fn read_atom(alloc: Global, room: usize, tokens: &mut Tokens) -> Result<Box<Expr>, ReadError>
    ensures gives { Gives (λ x. (boxed_term x, tokens.new)) result (read (atom_within room) tokens.old) }
    ensures shorter { OnOk result (length tokens.new < length tokens.old) }
{
    if room > 0 && tokens.begins_sign(Sign::OpenParen) {
        return read_bracketed(alloc, room - 1, tokens);
    }
    if room > 0 && tokens.begins::<Choice>() {
        return read_choice(alloc, room - 1, tokens);
    }
    let leaf = read_leaf(alloc, tokens)?;
    let boxed = Box::new(alloc, leaf)?;
    Ok(boxed)
}

#[cycle(expr)]
#[tactic(auto, unfolding(line_grammar::specs::Language::bracketed))]
fn read_bracketed(alloc: Global, room: usize, tokens: &mut Tokens) -> Result<Box<Expr>, ReadError>
    ensures gives { Gives (λ x. (boxed_term x, tokens.new)) result (read (bracketed (expr_over (atom_within room))) tokens.old) }
    ensures shorter { OnOk result (length tokens.new < length tokens.old) }
{
    tokens.sign(Sign::OpenParen)?;
    let value = read_boxed(alloc, room, tokens)?;
    tokens.sign(Sign::CloseParen)?;
    Ok(value)
}

// `min` or `max` of two expressions.
#[cycle(expr)]
#[tactic(auto, unfolding(line_grammar::specs::Language::choice))]
fn read_choice(alloc: Global, room: usize, tokens: &mut Tokens) -> Result<Box<Expr>, ReadError>
    ensures gives { Gives (λ x. (boxed_term x, tokens.new)) result (read (choice (expr_over (atom_within room))) tokens.old) }
    ensures shorter { OnOk result (length tokens.new < length tokens.old) }
{
    let op = tokens.item::<Choice>()?;
    tokens.sign(Sign::OpenParen)?;
    let left = read_boxed(alloc, room, tokens)?;
    tokens.sign(Sign::Comma)?;
    let right = read_boxed(alloc, room, tokens)?;
    tokens.sign(Sign::CloseParen)?;
    let value = binary(alloc, op, left, right)?;
    Ok(value)
}

// A number, an index or a path.
#[tactic(auto, unfolding(line_grammar::specs::Language::leaf))]
fn read_leaf(alloc: Global, tokens: &mut Tokens) -> Result<Expr, ReadError>
    ensures gives { Gives (λ x. (term_of x, tokens.new)) result (read leaf tokens.old) }
    ensures shorter { OnOk result (length tokens.new < length tokens.old) }
{
    if tokens.begins::<Number>() {
        let number = tokens.number()?;
        return Ok(Expr::Number(number));
    }
    if tokens.begins::<Index>() {
        let dimension = tokens.item::<Index>()?;
        return Ok(Expr::Index(dimension));
    }
    let path = read_path(alloc, tokens)?;
    Ok(Expr::Path(path))
}

// An operand behind what stands in front of it.
fn joined(
    alloc: Global,
    waiting: Option<(Box<Expr>, BinOp)>,
    right: Box<Expr>,
) -> Result<Box<Expr>, NoMemory>
    ensures { IfOk result (λ x. boxed_term x ≡ behind_left (left_term waiting) (boxed_term right)) }
{
    match waiting {
        None => Ok(right),
        Some((left, op)) => binary(alloc, op, left, right),
    }
}

fn binary(
    alloc: Global,
    op: BinOp,
    left: Box<Expr>,
    right: Box<Expr>,
) -> Result<Box<Expr>, NoMemory>
    ensures { IfOk result (λ x. boxed_term x ≡ Binary op (boxed_term left) (boxed_term right)) }
{
    let whole = Box::new(alloc, Expr::Binary { op, left, right })?;
    Ok(whole)
}

// How often `not` stands in front.
#[tactic(auto, using(crate::proofs::Links::sign_steps))]
fn count_words(tokens: &mut Tokens) -> Result<usize, ReadError>
    ensures gives { Gives (λ x. (x, tokens.new)) result (read (signs (Word (codes "not")) zero) tokens.old) }
    ensures no_longer { OnOk result (length tokens.new ≤ length tokens.old) }
    ensures fault { IfErr result IsSyntax }
{
    let most = tokens.len();
    let mut count = 0;
    while tokens.begins_word("not") {
        tokens.word("not")?;
        prove!(count < most);
        count += 1;
    }
    Ok(count)
}

// How often `-` stands in front.
#[tactic(auto, using(crate::proofs::Links::sign_steps))]
fn count_signs(tokens: &mut Tokens) -> Result<usize, ReadError>
    ensures gives { Gives (λ x. (x, tokens.new)) result (read (signs (Signed Minus) zero) tokens.old) }
    ensures no_longer { OnOk result (length tokens.new ≤ length tokens.old) }
    ensures fault { IfErr result IsSyntax }
{
    let most = tokens.len();
    let mut count = 0;
    while tokens.begins_sign(Sign::Minus) {
        tokens.sign(Sign::Minus)?;
        prove!(count < most);
        count += 1;
    }
    Ok(count)
}

// The value with so many `not` in front.
#[tactic(auto, using(crate::proofs::Links::wrapped_more))]
fn negated(alloc: Global, count: usize, inner: Box<Expr>) -> Result<Box<Expr>, NoMemory>
    ensures { IfOk result (λ x. boxed_term x ≡ wrapped Not count (boxed_term inner)) }
{
    let mut value = inner;
    for _ in 0..count {
        value = Box::new(alloc, Expr::Not(value))?;
    }
    Ok(value)
}

// The value with so many minuses in front.
#[tactic(auto, using(crate::proofs::Links::wrapped_more))]
fn negative(alloc: Global, count: usize, inner: Box<Expr>) -> Result<Box<Expr>, NoMemory>
    ensures { IfOk result (λ x. boxed_term x ≡ wrapped Neg count (boxed_term inner)) }
{
    let mut value = inner;
    for _ in 0..count {
        value = Box::new(alloc, Expr::Neg(value))?;
    }
    Ok(value)
}
