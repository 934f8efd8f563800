ghost use Rattle.std.specs.Prelude.{◌≡◌, ◌<◌, ◌≤ℤ◌};
ghost use Rattle.line_phrases.specs.Imports.{length, pos, IfOk, IfErr, OnOk, past, starts, item_at, is_sign, is_word, token_number};
ghost use Rattle.line_phrases.specs.Inner.Exprs.{means};
ghost use Rattle.line_phrases.specs.Inner.Gives.{Gives, IsSyntax};

use crate::ReadError;
use line_grammar::{Item, Number, Token};
use line_tokens::Sign;
use std::marker::Model;

/// The tokens that are left. A reader takes those of its phrase from the front. Contracts see the list of them. After an error
/// some of them may be gone.
#[derive(Drop)]
pub struct Tokens<'a, 'text> {
    rest: &'a [Token<'text>],
}

impl<'a, 'text> Model for Tokens<'a, 'text> {
    ghost use Rattle.std.specs.Prelude.{List};
    ghost use Rattle.line_grammar.specs.declared.token.Token.{Token};

    ghost Value = { List Token };

    ghost view = { λ t. t.rest.now };
}

impl<'a, 'text> Tokens<'a, 'text> {
    /// These tokens.
    pub fn new(tokens: &'a [Token<'text>]) -> Tokens<'a, 'text>
        ensures { result ≡ tokens.now }
    {
        Tokens { rest: tokens }
    }

    /// The number of tokens.
    pub fn len(&self) -> usize
        ensures { result ≡ length self.now }
    {
        self.rest.len()
    }

    /// Whether the first token is this sign.
    pub fn begins_sign(&self, sign: Sign) -> bool
        ensures { result ≡ starts (is_sign sign) self.now }
    {
        match self.rest {
            [] => false,
            [first, ..] => first.is_sign(sign),
        }
    }

    /// Whether the first token is this word.
    pub fn begins_word(&self, word: &str) -> bool
        ensures { result ≡ starts (is_word word.now) self.now }
    {
        match self.rest {
            [] => false,
            [first, ..] => first.is_word(word),
        }
    }

    /// Whether the first token is such an item.
    pub fn begins<T: Item>(&self) -> bool
        ensures { result ≡ starts (means T.value_of) self.now }
    {
        match self.rest {
            [] => false,
            [first, ..] => T::of(first).is_some(),
        }
    }

    /// Takes this sign, which is the first token.
    pub fn sign(&mut self, sign: Sign) -> Result<(), ReadError>
        ensures gives { Gives (λ _. self.new) result (past (is_sign sign) self.old) }
        ensures shorter { OnOk result (length self.new < length self.old) }
        ensures fault { IfErr result IsSyntax }
    {
        match self.rest {
            [first, rest @ ..] if first.is_sign(sign) => {
                self.rest = rest;
                Ok(())
            }
            _ => Err(ReadError::Syntax(self.rest.len())),
        }
    }

    /// Takes this word, which is the first token.
    pub fn word(&mut self, word: &str) -> Result<(), ReadError>
        ensures gives { Gives (λ _. self.new) result (past (is_word word.now) self.old) }
        ensures shorter { OnOk result (length self.new < length self.old) }
        ensures fault { IfErr result IsSyntax }
    {
        match self.rest {
            [first, rest @ ..] if first.is_word(word) => {
                self.rest = rest;
                Ok(())
            }
            _ => Err(ReadError::Syntax(self.rest.len())),
        }
    }

    /// Takes the first token, which is such an item, and gives what it stands for.
    pub fn item<T: Item>(&mut self) -> Result<T::Value, ReadError>
        ensures gives { Gives (λ x. (x, self.new)) result (item_at T.value_of self.old) }
        ensures shorter { OnOk result (length self.new < length self.old) }
        ensures fault { IfErr result IsSyntax }
    {
        match self.rest {
            [] => Err(ReadError::Syntax(0)),
            [first, rest @ ..] => {
                let value = T::of(first).ok_or(ReadError::Syntax(self.rest.len()))?;
                self.rest = rest;
                Ok(value)
            }
        }
    }

    /// Takes the first token, which is a number, and gives its value.
    pub fn number(&mut self) -> Result<i128, ReadError>
        ensures positive { IfOk result (λ x. pos 0 ≤ℤ x) }
        ensures gives { Gives (λ x. (x, self.new)) result (item_at token_number self.old) }
        ensures shorter { OnOk result (length self.new < length self.old) }
        ensures fault { IfErr result IsSyntax }
    {
        self.item::<Number>()
    }
}
