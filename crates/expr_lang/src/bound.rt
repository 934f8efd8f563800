ghost use Rattle.expr_lang.specs.Chains.{chain_term};
ghost use Rattle.expr_lang.specs.Terms.{IsWithin, IsWithin-prop};

use crate::BinOp;

/// What has a value at once: a number, the entry of a leaf, or the index in a dimension.
#[derive(Clone, Copy)]
pub enum Operand {
    Number(i128),
    Leaf(usize),
    Index(usize),
}

/// An expression as it is evaluated: its first operand from the left, and what is done with its value, link by link. So a
/// chain of operators is walked by a loop.
#[cycle(chain)]
#[derive(Drop)]
pub struct Chain {
    pub first: Operand,
    pub links: Links,
}

/// What is done with a value: nothing more, or a step and then the rest.
#[cycle(chain)]
pub enum Links {
    End,
    More(Box<Link>),
}

/// One step, and the links behind it.
#[cycle(chain)]
#[derive(Drop)]
pub struct Link {
    pub step: Step,
    pub rest: Links,
}

/// An operator with its operands but for the first, which is the value so far.
#[cycle(chain)]
#[derive(Drop)]
pub enum Step {
    Neg,
    Not,
    Binary { op: BinOp, right: Chain },
}

// A loop along the links, since a derived drop takes stack for each of them.
impl Drop for Links {
    #[cycle(chain)]
    fn drop(mut self) {
        loop {
            match self {
                Links::End => return,
                Links::More(link) => {
                    let Link { step, rest } = Box::into_inner(link);
                    drop(step);
                    self = rest;
                }
            }
        }
    }
}

/// An expression whose paths are numbers of leaves. They lie below its number of leaves, and its indices below its rank.
#[derive(Drop)]
pub struct Bound {
    pub(crate) chain: Chain,
    pub(crate) leaves: usize,
    pub(crate) rank: usize,
    ghost within: { IsWithin leaves rank (chain_term chain) } by { IsWithin-prop leaves rank (chain_term chain) },
}
