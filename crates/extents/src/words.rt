ghost use Rattle.std.specs.Prelude.{◌≡◌, ◌≢◌, ◌*◌, ◌↔◌, ◌<◌, ◌≤◌, ◌^◌, length, map, count_by, IsOk, IfOk, IfErr, IsSome, IsSomeAnd, IsTrue, MatchResult, Some, None, Err};
ghost use Rattle.std.specs.List.{list_any};
ghost use Rattle.extents.specs.Indices.{product};
ghost use Rattle.extents.specs.Shapes.{bad_shape, bad_extents, extent_of, extents_for, fixed_product, is_rows, is_zero, HasRows, HasTwoRows, HasZero, IsRanked, IsShape, IsTooMany, IsUnequal, IsUneven};

use crate::rows::Extents;
use arrayvec::ArrayVec;
use std::marker::Model;
use thiserror::Error;

/// The greatest number of extents.
const MAX_RANK: usize = 4;

/// The greatest number of rows.
const MAX_ROWS: u128 = 1 << 24;

/// One extent as it is written: a number, or `?` for what the number of rows leaves.
#[derive(Clone, Copy, PartialEq, Eq)]
pub enum ExtentWord {
    Fixed(u32),
    Rows,
}

/// Why words and a number of rows give no extents.
#[derive(Clone, Copy, Debug, PartialEq, Eq, Error)]
pub enum BadExtents {
    /// There are not 1 to 4 words.
    #[error("there are not 1 to 4 extents")]
    Rank,
    /// Two words are `Rows`.
    #[error("two extents are written `?`")]
    TwoRows,
    /// One word is `Rows`, and another is 0.
    #[error("an extent is 0 beside one that is written `?`")]
    RowsBesideZero,
    /// The fixed extents do not divide the number of rows.
    #[error("the other extents do not divide the number of rows")]
    NotDivisible,
    /// All extents are fixed, and another number of rows is given.
    #[error("the extents have another number of rows than is given")]
    NotEqual,
    /// There are more than 2^24 rows.
    #[error("there are more than 2^24 rows")]
    TooMany,
}

impl ExtentWord {
    fn is_rows(&self) -> bool
        ensures { result ≡ is_rows self.now }
    {
        matches!(self, ExtentWord::Rows)
    }

    fn is_zero(&self) -> bool
        ensures { result ≡ is_zero self.now }
    {
        matches!(self, ExtentWord::Fixed(0))
    }

    /// The extent where `Rows` stands for `size`.
    pub(crate) fn extent(&self, size: u32) -> u32
        ensures { result ≡ extent_of size self.now }
    {
        match self {
            ExtentWord::Fixed(extent) => *extent,
            ExtentWord::Rows => size,
        }
    }
}

// An `ArrayVec` fills its empty places with it.
impl Default for ExtentWord {
    ghost use Rattle.std.specs.Prelude.{◌≡◌};
    ghost use Rattle.extents.specs.declared.words.ExtentWord.TheVariants.{Fixed};

    ghost is_default = { λ word. word ≡ Fixed 0 };

    fn default() -> Self {
        ExtentWord::Fixed(0)
    }
}

/// The written extents of an array: 1 to 4 words, of which at most one is `Rows`, and none is 0
/// beside it.
#[derive(Drop)]
pub struct Shape {
    words: ArrayVec<ExtentWord, 4>,
}

// Clauses see the words.
impl Model for Shape {
    ghost use Rattle.std.specs.Prelude.{List};
    ghost use Rattle.extents.specs.declared.words.ExtentWord.{ExtentWord};
    ghost use Rattle.extents.specs.Shapes.{IsShape};

    ghost Value = { List ExtentWord };

    ghost view = { λ s. s.words.items };

    ghost invariant = { λ s. IsShape s.words.items };
}

impl Shape {
    /// The shape of these words. The first cause that holds is answered, in the order of
    /// `BadExtents`.
    pub fn new(words: &[ExtentWord]) -> Result<Shape, BadExtents>
        ensures ok { IsOk result ↔ IsShape words.now }
        ensures words { IfOk result (λ shape. shape ≡ words.now) }
        ensures first { MatchResult result (λ _. bad_shape words.now ≡ None) (λ bad. bad_shape words.now ≡ Some bad) }

        ensures rank { (result ≡ Err BadExtents.Rank) ↔ ¬ IsRanked words.now }
        ensures two_rows { (result ≡ Err BadExtents.TwoRows) ↔ (IsRanked words.now × HasTwoRows words.now) }
        ensures rows_beside_zero { (result ≡ Err BadExtents.RowsBesideZero)
            ↔ (IsRanked words.now × (¬ HasTwoRows words.now) × HasRows words.now × HasZero words.now) }
    {
        check(words)?;
        let mut copied = ArrayVec::new();
        for word in words {
            copied.push(*word);
        }
        Ok(Shape { words: copied })
    }

    /// The extents for a number of rows, which is given where the shape has `Rows`. That extent
    /// becomes the number of rows divided by the product of the others.
    pub fn resolve(&self, rows: Option<u64>) -> Result<Extents, BadExtents>
        requires { HasRows self.now → IsSome rows }
        ensures ok { IsOk result ↔ ((¬ IsUneven self.now rows) × (¬ IsUnequal self.now rows) × (¬ IsTooMany self.now rows)) }
        ensures extents { IfOk result (λ extents. extents ≡ extents_for self.now rows) }
        ensures first { MatchResult result (λ _. bad_extents self.now rows ≡ None) (λ bad. bad_extents self.now rows ≡ Some bad) }

        ensures not_divisible { (result ≡ Err BadExtents.NotDivisible) ↔ IsUneven self.now rows }
        ensures not_equal { (result ≡ Err BadExtents.NotEqual) ↔ IsUnequal self.now rows }
        ensures too_many { (result ≡ Err BadExtents.TooMany)
            ↔ ((¬ IsUneven self.now rows) × (¬ IsUnequal self.now rows) × IsTooMany self.now rows) }
    {
        let words = self.words.as_slice();
        let fixed = fixed_product(words);
        if count_rows(words) == 0 {
            if differs(rows, fixed) {
                return Err(BadExtents::NotEqual);
            }
            return bounded(words, 0, fixed);
        }
        let rows = u128::from(rows.unwrap());
        if rows % fixed != 0 {
            return Err(BadExtents::NotDivisible);
        }
        bounded(words, rows / fixed, rows)
    }
}

/// The first cause for which words are no shape.
fn check(words: &[ExtentWord]) -> Result<(), BadExtents>
    ensures ok { IsOk result ↔ IsShape words.now }
    ensures first { MatchResult result (λ _. bad_shape words.now ≡ None) (λ bad. bad_shape words.now ≡ Some bad) }
    ensures rank { (result ≡ Err BadExtents.Rank) ↔ ¬ IsRanked words.now }
    ensures two_rows { (result ≡ Err BadExtents.TwoRows) ↔ (IsRanked words.now × HasTwoRows words.now) }
    ensures rows_beside_zero { (result ≡ Err BadExtents.RowsBesideZero)
        ↔ (IsRanked words.now × (¬ HasTwoRows words.now) × HasRows words.now × HasZero words.now) }
{
    if words.is_empty() || words.len() > MAX_RANK {
        return Err(BadExtents::Rank);
    }
    let rows = count_rows(words);
    let has_zero = has_zero(words);
    if rows > 1 {
        return Err(BadExtents::TwoRows);
    }
    if rows == 1 && has_zero {
        return Err(BadExtents::RowsBesideZero);
    }
    Ok(())
}

fn count_rows(words: &[ExtentWord]) -> usize
    ensures { result ≡ count_by is_rows words.now }
{
    words.iter().filter(|word| word.is_rows()).count()
}

/// Whether a number of rows is given that is not `count`.
fn differs(rows: Option<u64>, count: u128) -> bool
    ensures { IsTrue result ↔ IsSomeAnd rows (λ n. n ≢ count) }
{
    match rows {
        Some(rows) => u128::from(rows) != count,
        None => false,
    }
}

fn has_zero(words: &[ExtentWord]) -> bool
    ensures { result ≡ list_any is_zero words.now }
{
    words.iter().any(|word| word.is_zero())
}

/// The product of the fixed extents, exact, since 128 bits hold four factors of 32.
pub(crate) fn fixed_product(words: &[ExtentWord]) -> u128
    requires { length words.now ≤ 4 }
    ensures { result ≡ fixed_product words.now }
{
    let mut product = 1u128;
    for word in words {
        product *= u128::from(word.extent(1));
    }
    product
}

/// The extents with `size` for `Rows`, where their `count` of rows is not too great.
fn bounded(words: &[ExtentWord], size: u128, count: u128) -> Result<Extents, BadExtents>
    requires ranked { IsRanked words.now }
    requires sized { size ≤ count }
    requires counted { count ≡ product (map (extent_of size) words.now) }
    ensures ok { IsOk result ↔ (count ≤ 2 ^ 24) }
    ensures value { IfOk result (λ extents. extents ≡ map (extent_of size) words.now) }
    ensures too_many { (result ≡ Err BadExtents.TooMany) ↔ (2 ^ 24 < count) }
    ensures only { IfErr result (λ e. e ≡ BadExtents.TooMany) }
{
    if count > MAX_ROWS {
        return Err(BadExtents::TooMany);
    }
    Ok(Extents::of_words(words, size as u32, count as u64))
}
