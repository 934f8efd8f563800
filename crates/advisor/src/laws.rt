// What holds of the granules that are touched.
ghost use Rattle.std.specs.Prelude.{ℕ, Bool, ◌≡◌, ◌+◌, List, map, not, length, slice_index_or};
ghost use Rattle.advisor.specs.Imports.{Owner, IsLaidOut, numbers_of, split};
ghost use Rattle.advisor.specs.Touched.{touched};
ghost use Rattle.advisor.specs.TouchedBy.{IsTouchedBy};

/// The laws of touched granules. This function does nothing: its contract is the laws.
///
/// A split touches what its sides touch. A granule is touched exactly where the access to some of the cells in some row touches it.
pub fn touched_laws()
    ensures split { (test : ℕ → Bool) (granule : ℕ) (side : List Bool) (first rest : List (List Owner))
        → touched test granule (split side first rest)
        ≡ touched (λ cell. test (slice_index_or (numbers_of side) cell 0)) granule first
        + touched (λ cell. test (slice_index_or (numbers_of (map not side)) cell 0)) granule rest }
    ensures hot { (layout : List (List Owner)) (slots : ℕ) (widths : List ℕ) → IsLaidOut layout slots widths
        → (test : ℕ → Bool) (granule blob at : ℕ) → IsTouchedBy layout slots (length widths) test granule blob at }
{}
