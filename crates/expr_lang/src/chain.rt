ghost use Rattle.std.specs.Prelude.{◌≡◌};
ghost use Rattle.expr_lang.specs.Bounds.{bound_term, bound_leaves, bound_rank};
ghost use Rattle.expr_lang.specs.Chains.{chain_term};
ghost use Rattle.expr_lang.specs.Terms.{IsWithin};

use crate::bound::{Bound, Chain};

impl Bound {
    /// Its first operand, and what is done with its value, link by link.
    pub fn chain(&self) -> &Chain
        ensures term { chain_term result.now ≡ bound_term self.now }
        ensures within { IsWithin (bound_leaves self.now) (bound_rank self.now) (chain_term result.now) }
    {
        &self.chain
    }
}
