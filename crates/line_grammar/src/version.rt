ghost use Rattle.std.specs.Prelude.{◌≡◌};
ghost use Rattle.line_grammar.specs.Versions.{is_two};

/// A version of the script language. A phrase that differs between versions looks at it.
#[derive(Clone, Copy)]
pub enum Version {
    One,
    Two,
}

impl Version {
    /// Whether it has what came with the second version.
    pub fn is_two(self) -> bool
        ensures { result ≡ is_two self }
    {
        match self {
            Version::One => false,
            Version::Two => true,
        }
    }
}
