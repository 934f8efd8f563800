//! The signs of the language, from its brackets to its operators.

ghost use Rattle.std.specs.Prelude.{◌≡◌};
ghost use Rattle.line_tokens.specs.Signs.{closes, opens, spelling};
ghost use Rattle.line_tokens.specs.Next.{double_sign, single_sign};

/// A sign, of one byte or of two.
#[derive(Clone, Copy, PartialEq, Eq)]
pub enum Sign {
    /// `{`
    OpenBrace,
    /// `}`
    CloseBrace,
    /// `[`
    OpenBracket,
    /// `]`
    CloseBracket,
    /// `(`
    OpenParen,
    /// `)`
    CloseParen,
    /// `:`
    Colon,
    /// `,`
    Comma,
    /// `.`
    Dot,
    /// `=`
    Equals,
    /// `==`
    EqualEqual,
    /// `!=`
    NotEqual,
    /// `<`
    LessThan,
    /// `<=`
    LessEqual,
    /// `>`
    GreaterThan,
    /// `>=`
    GreaterEqual,
    /// `+`
    Plus,
    /// `-`
    Minus,
    /// `->`
    Arrow,
    /// `*`
    Star,
    /// `/`
    Slash,
    /// `%`
    Percent,
    /// `?`
    Question,
}

impl Sign {
    /// How the sign is spelled.
    pub fn text(self) -> &'static str
        ensures { result.now ≡ spelling self }
    {
        match self {
            Sign::OpenBrace => "{",
            Sign::CloseBrace => "}",
            Sign::OpenBracket => "[",
            Sign::CloseBracket => "]",
            Sign::OpenParen => "(",
            Sign::CloseParen => ")",
            Sign::Colon => ":",
            Sign::Comma => ",",
            Sign::Dot => ".",
            Sign::Equals => "=",
            Sign::EqualEqual => "==",
            Sign::NotEqual => "!=",
            Sign::LessThan => "<",
            Sign::LessEqual => "<=",
            Sign::GreaterThan => ">",
            Sign::GreaterEqual => ">=",
            Sign::Plus => "+",
            Sign::Minus => "-",
            Sign::Arrow => "->",
            Sign::Star => "*",
            Sign::Slash => "/",
            Sign::Percent => "%",
            Sign::Question => "?",
        }
    }

    // An opening bracket.
    pub(crate) fn opens(self) -> bool
        ensures { result ≡ opens self }
    {
        matches!(self, Sign::OpenBrace | Sign::OpenBracket | Sign::OpenParen)
    }

    // A closing bracket.
    pub(crate) fn closes(self) -> bool
        ensures { result ≡ closes self }
    {
        matches!(
            self,
            Sign::CloseBrace | Sign::CloseBracket | Sign::CloseParen
        )
    }
}

// The sign that these two bytes spell.
pub(crate) fn double_sign(first: u8, second: u8) -> Option<Sign>
    ensures { result ≡ double_sign first second }
{
    match (first, second) {
        (b'=', b'=') => Some(Sign::EqualEqual),
        (b'!', b'=') => Some(Sign::NotEqual),
        (b'<', b'=') => Some(Sign::LessEqual),
        (b'>', b'=') => Some(Sign::GreaterEqual),
        (b'-', b'>') => Some(Sign::Arrow),
        _ => None,
    }
}

// The sign that this byte spells.
pub(crate) fn single_sign(byte: u8) -> Option<Sign>
    ensures { result ≡ single_sign byte }
{
    match byte {
        b'{' => Some(Sign::OpenBrace),
        b'}' => Some(Sign::CloseBrace),
        b'[' => Some(Sign::OpenBracket),
        b']' => Some(Sign::CloseBracket),
        b'(' => Some(Sign::OpenParen),
        b')' => Some(Sign::CloseParen),
        b':' => Some(Sign::Colon),
        b',' => Some(Sign::Comma),
        b'.' => Some(Sign::Dot),
        b'=' => Some(Sign::Equals),
        b'<' => Some(Sign::LessThan),
        b'>' => Some(Sign::GreaterThan),
        b'+' => Some(Sign::Plus),
        b'-' => Some(Sign::Minus),
        b'*' => Some(Sign::Star),
        b'/' => Some(Sign::Slash),
        b'%' => Some(Sign::Percent),
        b'?' => Some(Sign::Question),
        _ => None,
    }
}
