ghost use Rattle.std.specs.Prelude.{◌≡◌, IsTrue};
ghost use Rattle.line_grammar.specs.Tokens.{is_word, is_sign};

use crate::Quoted;
use line_tokens::Sign;
use record_dim::Name;

/// A token with what the grammar sees of it. Its string is a range of the line.
#[derive(Drop)]
pub enum Token<'a> {
    Word(Name),
    /// At most 2^127 - 1.
    Number(i128),
    /// A string without its quotes.
    Text(Quoted<'a>),
    Sign(Sign),
    /// A bad token, which no phrase has.
    Bad,
}

impl Token<'_> {
    /// Whether the token is this sign.
    pub fn is_sign(&self, sign: Sign) -> bool
        ensures { result ≡ is_sign sign self.now }
    {
        matches!(self, Token::Sign(other) if *other == sign)
    }

    /// Whether the token is this word.
    pub fn is_word(&self, word: &str) -> bool
        ensures { result ≡ is_word word.now self.now }
    {
        matches!(self, Token::Word(name) if name.as_str() == word)
    }
}
