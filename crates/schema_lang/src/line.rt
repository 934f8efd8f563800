ghost use Rattle.std.specs.Prelude.{◌≡◌, ◌≤◌};
ghost use Rattle.schema_lang.specs.Imports.{ℕ, List, [], length, IfOk, IfErr, MatchResult, Version, Reads, StopsAt, Sentence, deepest, sentence_of, Gives};
ghost use Rattle.schema_lang.specs.LineOf.{IsTold, line_at, line_of};
ghost use Rattle.schema_lang.specs.Parsing.{IsAnswer, IsFault, HasItsFields};

use crate::LineFault;
use crate::bodies::read_command;
use crate::depth::is_shallow;
use crate::token_list::{column_of, tokens_of};
use line_grammar::{Line, Token, Version};
use line_phrases::{ReadError, Tokens};
use line_tokens::spots_of;
use std::alloc::Global;

/// The most bytes of a line.
pub const MAX_LINE_BYTES: usize = 4096;

/// The line that the text is in this version of the language. A fault is `Syntax` where it is none, and `TooDeep` where it is one
/// with an expression more than 32 deep. The depth of a mapping is not looked at here.
pub fn parse_line(alloc: Global, text: &[u8], version: Version) -> Result<Line, LineFault>
    requires { length text.now ≤ 4096 }
    // What is read is the line that the text is.
    ensures found { IfOk result (λ line. Reads version text.now (sentence_of line)) }
    ensures whole { IfOk result HasItsFields }
    ensures shallow { IfOk result (λ line. deepest (sentence_of line) ≤ 32) }
    // Which fault it is, and where it stands.
    ensures fault { IfErr result (IsFault version text.now) }
    // A text that is a line is read as that line, unless it is too deep.
    ensures only { (sentence : Sentence) → Reads version text.now sentence → IsAnswer sentence result }
    // It is what a function of the text tells, which is the grammar's answer (`line_law`).
    ensures told { IsTold (line_of version text.now) result }
    // No text is two lines.
    ensures one { (a b : Sentence) → Reads version text.now a → Reads version text.now b → a ≡ b }
{
    let spots = spots_of(alloc, text)?;
    let tokens = tokens_of(alloc, text, spots.as_slice())?;
    match read_line(alloc, version, &tokens) {
        Ok(line) => {
            if is_shallow(&line) {
                Ok(line)
            } else {
                // One call: at the end of the block a drop for each kind of line would stand here.
                drop(line);
                Err(LineFault::TooDeep)
            }
        }
        Err(ReadError::NoMemory) => Err(LineFault::NoMemory),
        Err(ReadError::Syntax(left)) => Err(LineFault::Syntax {
            column: column_of(spots.as_slice(), left),
        }),
    }
}

// The line that has these tokens.
#[tactic(auto, unfolding(crate::specs::LineOf::line_at, line_grammar::specs::Language::line), using(crate::proofs::LineLaws::line_begun))]
fn read_line(alloc: Global, version: Version, tokens: &[Token<'_>]) -> Result<Line, ReadError>
    ensures { Gives (λ x. (sentence_of x, [])) result (line_at version tokens.now) }
{
    let mut left = Tokens::new(tokens);
    if tokens.is_empty() {
        return Ok(Line::Blank);
    }
    let line = read_command(alloc, version, &mut left)?;
    if left.len() > 0 {
        drop(line);
        return Err(ReadError::Syntax(left.len()));
    }
    Ok(line)
}

/// What `line_of` tells of a text is what the grammar says. It does nothing: its contract is the law.
pub fn line_law()
    ensures { (version : Version) (text : List ℕ) → MatchResult (line_of version text) (Reads version text) (StopsAt version text) }
{}

/// No text is two lines. It does nothing: its contract is the law.
pub fn one_line_law()
    ensures { (version : Version) (text : List ℕ) (a b : Sentence) → Reads version text a → Reads version text b → a ≡ b }
{}
