// The advice of candidates, each of which is marked where it suits.
ghost use Rattle.std.specs.Prelude.{ℕ, ◌≡◌, ◌<◌, ◌≤◌, Bool, Some, None, IfOk, IfSome, if◌then◌else◌, length, map, take};
ghost use Rattle.advisor.specs.Imports.{Term, term_of};
ghost use Rattle.advisor.specs.Advice.{advised, told_by};
ghost use Rattle.advisor.specs.Inner.Choices.{costs_in, AreMarked, IsCheapest, undercuts};
ghost use Rattle.advisor.specs.Inner.Pools.{terms_in};

use crate::advice::{Advice, Best, CostList};
use crate::candidate::Candidate;
use std::alloc::{AllocError as NoMemory, Global};

/// What each listed candidate costs that suits, and the cheapest of all that suit. The first so many candidates are the listed ones.
pub fn advice_of(
    alloc: Global,
    pool: &[Candidate],
    marks: &[bool],
    listed: usize,
) -> Result<Advice, NoMemory>
    requires each { length marks.now ≡ length pool.now }
    requires listed { listed ≤ length pool.now }
    ensures { IfOk result (λ advice. (suit : Term → Bool) (price : Term → ℕ) → AreMarked suit price pool.now marks.now
        → told_by advice ≡ advised suit price (take listed (terms_in pool.now)) (terms_in pool.now)) }
{
    let costs = marked_costs(alloc, pool, marks, listed)?;
    let best = match cheapest(pool, marks) {
        Some(at) => Some(best_of(alloc, &pool[at])?),
        None => None,
    };
    Ok(Advice { costs, best })
}

// What each of the first so many candidates costs that is marked.
fn marked_costs(
    alloc: Global,
    pool: &[Candidate],
    marks: &[bool],
    listed: usize,
) -> Result<CostList, NoMemory>
    requires each { length marks.now ≡ length pool.now }
    requires listed { listed ≤ length pool.now }
    ensures { IfOk result (λ costs. (suit : Term → Bool) (price : Term → ℕ) → AreMarked suit price pool.now marks.now
        → costs ≡ map (λ term. if suit term then Some (price term) else None) (take listed (terms_in pool.now))) }
{
    let mut costs = CostList::new(alloc);
    for at in 0..listed {
        costs.push(marks[at].then_some(pool[at].cost))?;
    }
    Ok(costs)
}

// The first of the marked candidates that none of them undercuts.
fn cheapest(pool: &[Candidate], marks: &[bool]) -> Option<usize>
    requires { length marks.now ≡ length pool.now }
    ensures { IsCheapest (costs_in pool.now) marks.now (length pool.now) result }
{
    let mut best = None;
    for at in 0..pool.len() {
        if marks[at] && undercuts(pool, at, best) {
            best = Some(at);
        }
    }
    best
}

// Whether a candidate costs less than the best so far.
fn undercuts(pool: &[Candidate], at: usize, best: Option<usize>) -> bool
    requires at { at < length pool.now }
    requires best { IfSome best (λ other. other < length pool.now) }
    ensures { result ≡ undercuts (costs_in pool.now) at best }
{
    match best {
        Some(other) => pool[at].cost < pool[other].cost,
        None => true,
    }
}

fn best_of(alloc: Global, candidate: &Candidate) -> Result<Best, NoMemory>
    ensures cost { IfOk result (λ best. best.cost ≡ candidate.now.cost) }
    ensures term { IfOk result (λ best. term_of best.expr ≡ term_of candidate.now.expr) }
{
    let expr = candidate.expr.copy(alloc)?;
    Ok(Best {
        cost: candidate.cost,
        expr,
    })
}
