ghost use Rattle.std.specs.Prelude.{◌≡◌, ◌^◌, ◌-◌, min};
ghost use Rattle.expr_lang.specs.Terms.{term_of, depth_of};

use record_dim::Path;

/// An operator with a left and a right operand.
#[derive(Clone, Copy)]
pub enum BinOp {
    Add,
    Sub,
    Mul,
    Div,
    Rem,
    Min,
    Max,
    Eq,
    Ne,
    Lt,
    Le,
    Gt,
    Ge,
    And,
    Or,
}

/// An expression over the leaves of a row and the index of the row, in whole numbers.
pub enum Expr {
    Number(i128),
    /// The entry of the leaf that has this path.
    Path(Path),
    /// The row's index in the dimension of this number, counted from 0.
    Index(u32),
    Neg(Box<Expr>),
    Not(Box<Expr>),
    Binary {
        op: BinOp,
        left: Box<Expr>,
        right: Box<Expr>,
    },
}

impl Expr {
    /// 1 for a number, a path and an index, and one more than the deepest operand else. It stays at `2^64 - 1`. Left
    /// operands are walked by a loop, so only right operands that nest take stack.
    pub fn depth(&self) -> u64
        ensures { result ≡ min (depth_of (term_of self.now)) (2 ^ 64 - 1) }
    {
        let mut deepest = 0u64;
        let mut level = 0u64;
        let mut node = self;
        loop {
            level = level.saturating_add(1);
            match node {
                Expr::Number(_) | Expr::Path(_) | Expr::Index(_) => return deepest.max(level),
                Expr::Neg(inner) | Expr::Not(inner) => node = inner,
                Expr::Binary { op: _, left, right } => {
                    deepest = deepest.max(level.saturating_add(right.depth()));
                    node = left;
                }
            }
        }
    }
}

// A loop down the left operands, since a derived drop takes stack for each operator of a chain.
impl Drop for Expr {
    fn drop(mut self) {
        loop {
            match self {
                Expr::Number(_) => return,
                Expr::Path(_) => return,
                Expr::Index(_) => return,
                Expr::Neg(inner) => self = Box::into_inner(inner),
                Expr::Not(inner) => self = Box::into_inner(inner),
                Expr::Binary {
                    op: _,
                    left,
                    right: _,
                } => self = Box::into_inner(left),
            }
        }
    }
}
