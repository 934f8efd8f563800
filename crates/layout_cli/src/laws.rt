// Laws of the run of the program: of scripts that differ in their mapping expressions alone, of what is shown of accesses, and of version
// lines and blank lines.
ghost use Rattle.std.specs.Prelude.{ℕ, List};
ghost use Rattle.layout_io.specs.Prelude.{File};
ghost use Rattle.equal_runs.specs.RunEntries.{ShowsEntries};
ghost use Rattle.line_grammar.specs.declared.version.Version.{Version};
ghost use Rattle.session_runs.specs.Heads.{PassesBlanks, RunsUnversioned};
ghost use Rattle.session_runs.specs.Steps.{step_text};
ghost use Rattle.layout_cli.specs.EqualScripts.{EqualScripts};

use equal_runs::{same_results, shown_entries};

/// Two scripts among the same files that differ in their mapping expressions alone have the same run: see `same_results`, for what the
/// program does with the text of a line. It does nothing: its contract is the law.
pub fn equal_scripts()
    ensures { (files : List File) → EqualScripts files }
{
    same_results();
}

/// What a script writes at a `counts` or a `heat` are the accesses that its lines made until then: see `shown_entries`, for what the
/// program does with the text of a line. It does nothing: its contract is the law.
pub fn printed_entries()
    ensures { (version : Version) (files : List File) → ShowsEntries version files (step_text version files) }
{
    shown_entries();
}

/// A script whose first line that is not blank is no version line is run line by line in the first version. It
/// does nothing: its contract is the law.
pub fn unversioned_scripts()
    ensures { (script : List ℕ) (files : List File) → RunsUnversioned script files }
{}

/// Blank lines do nothing in a run of any version. It does nothing: its contract is the law.
pub fn blank_lines()
    ensures { (version : Version) (files : List File) → PassesBlanks version files }
{}
