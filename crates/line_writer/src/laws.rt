ghost use Rattle.std.specs.Prelude.{ℕ, List, ◌≤◌, map};
ghost use Rattle.line_writer.specs.Imports.{NoEnd, AreSpelled, Version, Sentence, deepest, Reads};
ghost use Rattle.line_writer.specs.Canonical.{line_tokens};
ghost use Rattle.line_writer.specs.Texts.{canonical, written};

/// What holds of the canonical text of a line that some text is, where no expression is deeper than 32: it is read as this line,
/// its tokens are spelled and open no 65th bracket, and it ends no line. It does nothing: its contract is the law.
pub fn canonical_law()
    ensures reads_back { (version : Version) (text : List ℕ) (sentence : Sentence) → Reads version text sentence
        → deepest sentence ≤ 32 → Reads version (canonical sentence) sentence }
    ensures spelled { (version : Version) (text : List ℕ) (sentence : Sentence) → Reads version text sentence
        → deepest sentence ≤ 32 → AreSpelled 0 (map written (line_tokens sentence)) }
    ensures one_line { (version : Version) (text : List ℕ) (sentence : Sentence) → Reads version text sentence
        → deepest sentence ≤ 32 → NoEnd (canonical sentence) }
{}
