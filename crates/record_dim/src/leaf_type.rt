ghost use Rattle.std.specs.Prelude.{◌≡◌};
ghost use Rattle.record_dim.specs.LeafTypes.{width_of, is_signed, least_of, greatest_of};

/// The type of one leaf of a record: a truth value, or a whole number of a fixed width in bits.
#[derive(Clone, Copy, PartialEq, Eq)]
pub enum LeafType {
    Bool,
    U8,
    U16,
    U32,
    U64,
    I8,
    I16,
    I32,
    I64,
}

impl LeafType {
    /// The width in bits. A `bool` takes one byte.
    pub fn width(self) -> u32
        ensures { result ≡ width_of self }
    {
        match self {
            LeafType::Bool | LeafType::U8 | LeafType::I8 => 8,
            LeafType::U16 | LeafType::I16 => 16,
            LeafType::U32 | LeafType::I32 => 32,
            LeafType::U64 | LeafType::I64 => 64,
        }
    }

    /// Whether values are two's complement numbers.
    pub fn signed(self) -> bool
        ensures { result ≡ is_signed self }
    {
        match self {
            LeafType::I8 | LeafType::I16 | LeafType::I32 | LeafType::I64 => true,
            LeafType::Bool | LeafType::U8 | LeafType::U16 | LeafType::U32 | LeafType::U64 => false,
        }
    }

    /// The least value of the declared range.
    pub fn least(self) -> i128
        ensures { result ≡ least_of self }
    {
        match self {
            LeafType::Bool | LeafType::U8 | LeafType::U16 | LeafType::U32 | LeafType::U64 => 0,
            LeafType::I8 => i128::from(i8::MIN),
            LeafType::I16 => i128::from(i16::MIN),
            LeafType::I32 => i128::from(i32::MIN),
            LeafType::I64 => i128::from(i64::MIN),
        }
    }

    /// The greatest value of the declared range. That of a `bool` is 1.
    pub fn greatest(self) -> i128
        ensures { result ≡ greatest_of self }
    {
        match self {
            LeafType::Bool => 1,
            LeafType::U8 => i128::from(u8::MAX),
            LeafType::U16 => i128::from(u16::MAX),
            LeafType::U32 => i128::from(u32::MAX),
            LeafType::U64 => i128::from(u64::MAX),
            LeafType::I8 => i128::from(i8::MAX),
            LeafType::I16 => i128::from(i16::MAX),
            LeafType::I32 => i128::from(i32::MAX),
            LeafType::I64 => i128::from(i64::MAX),
        }
    }
}
