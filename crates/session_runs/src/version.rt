// The version line of a script.
ghost use Rattle.std.specs.Prelude.{◌≡◌, ◌+◌, ◌<◌, ◌∷◌, ℕ, List, drop, length, option_map, IfSome};
ghost use Rattle.session_runs.specs.Imports.{version_numbered, lines_in};
ghost use Rattle.session_runs.specs.Heads.{with_first};
ghost use Rattle.session_runs.specs.Scripts.{version_line};

use schema_lang::{MAX_LINE_BYTES, Version, is_blank, version_of};
use worlds::next_line;

/// A version line: how many lines stand before it, its number, and what stands behind it.
#[derive(Clone, Copy)]
pub struct VersionLine<'a> {
    pub before: u64,
    pub number: u32,
    pub rest: &'a [u8],
}

// What the first of some lines is to their version line.
#[derive(Clone, Copy)]
enum FirstLine {
    /// The version line is that of the lines behind it.
    Blank,
    /// It is the version line, of this number.
    Version(u32),
    /// There is none.
    Other,
}

/// The version line of a script: its first line that is not blank, where the tokens of that are `version` and a number.
pub fn version_line(script: &[u8]) -> Option<VersionLine<'_>>
    ensures is { option_map (λ head. (head.before, head.number)) result ≡ version_line (lines_in script.now) }
    ensures rest { IfSome result (λ head. lines_in head.rest.now ≡ drop (head.before + 1) (lines_in script.now)) }
    ensures within { IfSome result (λ head. head.before < length (lines_in script.now)) }
{
    let mut rest = script;
    let mut before = 0u64;
    while let Some((line, behind)) = next_line(rest) {
        match first_line(line) {
            FirstLine::Blank => {}
            FirstLine::Version(number) => {
                return Some(VersionLine {
                    before,
                    number,
                    rest: behind,
                });
            }
            FirstLine::Other => return None,
        }
        before += 1;
        rest = behind;
    }
    None
}

// What a line is to the version line of lines that begin with it.
fn first_line(line: &[u8]) -> FirstLine
    ensures { (lines : List (List ℕ)) → version_line (line.now ∷ lines) ≡ with_first result (version_line lines) }
{
    if line.len() > MAX_LINE_BYTES {
        return FirstLine::Other;
    }
    if is_blank(line) {
        return FirstLine::Blank;
    }
    match version_of(line) {
        Some(number) => FirstLine::Version(number),
        None => FirstLine::Other,
    }
}

/// The version of a number.
pub fn version_numbered(number: u32) -> Option<Version>
    ensures { result ≡ version_numbered number }
{
    match number {
        1 => Some(Version::One),
        2 => Some(Version::Two),
        _ => None,
    }
}
