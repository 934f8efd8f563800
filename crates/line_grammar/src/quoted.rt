ghost use Rattle.std.specs.Prelude.{◌≡◌, Some, None, if◌then◌else◌};
ghost use Rattle.line_grammar.specs.Inner.FileNames.{is_file_name};

use crate::FileName;
use crate::file_name::is_file_name;
use std::marker::Model;

/// What stands between the quotes of a string: a range of the line, of the form of a file's name. Contracts see its bytes.
#[derive(Drop)]
pub struct Quoted<'a> {
    text: &'a str,
}

impl<'a> Model for Quoted<'a> {
    ghost use Rattle.std.specs.Prelude.{ℕ, List, IsTrue};
    ghost use Rattle.line_grammar.specs.Inner.FileNames.{is_file_name};

    ghost Value = { List ℕ };

    ghost view = { λ quoted. quoted.text.now };

    ghost invariant = { λ quoted. IsTrue (is_file_name quoted.text.now) };
}

impl Quoted<'_> {
    /// This text, or None where it has not the form.
    pub fn new(text: &str) -> Option<Quoted<'_>>
        ensures { result ≡ (if is_file_name text.now then Some text.now else None) }
    {
        if is_file_name(text.as_bytes()) {
            Some(Quoted { text })
        } else {
            None
        }
    }

    /// The name of a file that it is.
    pub fn file_name(&self) -> FileName
        ensures { result ≡ self.now }
    {
        match FileName::new(self.text) {
            Some(name) => name,
            None => unreachable!(),
        }
    }
}
