// Laws of runs: of scripts that differ in their mapping expressions alone, and of what a run shows of its accesses.
ghost use Rattle.equal_runs.specs.Imports.{Bool, List, ℕ, File, Version, Outcome, Left, World};
ghost use Rattle.equal_runs.specs.RunEntries.{ShowsEntries};
ghost use Rattle.equal_runs.specs.EqualRuns.{DoesLines, EqualRuns};

use views::counts_are_entries;

/// Two scripts that differ in their mapping expressions alone write the same bytes and end alike over the same files, where neither shows
/// how a table lies, and neither run ends with a fault of how tables lie. It does nothing: its contract is the law.
pub fn same_results()
    ensures { (version : Version) (files : List File) (outcome : World → List ℕ → Bool → Outcome Left)
        → DoesLines version files outcome → EqualRuns version files outcome }
{}

/// What a run writes at a `counts` or a `heat` are the accesses that it made to the view since the view was made: each number is that of
/// the accesses to a leaf, or of those that touch a granule, or 2^64 - 1 where there are more. It does nothing: its contract is the law.
pub fn shown_entries()
    ensures { (version : Version) (files : List File) (outcome : World → List ℕ → Bool → Outcome Left)
        → DoesLines version files outcome → ShowsEntries version files outcome }
{
    counts_are_entries();
}
