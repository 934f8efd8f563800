ghost use Rattle.std.specs.Prelude.{◌≡◌};
ghost use Rattle.piece_bits.specs.NumberTypes.{compares};

use num_traits::PrimInt;

/// How a value stands to a constant.
#[derive(Clone, Copy)]
pub enum Compare {
    Eq,
    Ne,
    Lt,
    Le,
    Gt,
    Ge,
}

impl Compare {
    /// Whether a value stands so to a constant.
    #[inline(always)]
    pub fn holds<T: PrimInt>(self, value: T, c: T) -> bool
        ensures { result ≡ compares self (T.value value) (T.value c) }
    {
        match self {
            Compare::Eq => value == c,
            Compare::Ne => value != c,
            Compare::Lt => value < c,
            Compare::Le => value <= c,
            Compare::Gt => c < value,
            Compare::Ge => c <= value,
        }
    }
}
