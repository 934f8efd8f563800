ghost use Rattle.std.specs.Prelude.{◌≡◌, Some, None, IsTrue, if◌then◌else◌};
ghost use Rattle.std.specs.List.{list_all};
ghost use Rattle.line_tokens.specs.Bytes.{is_text_byte};
ghost use Rattle.line_grammar.specs.Inner.FileNames.{is_file_name};

use line_tokens::MAX_STRING_BYTES;
use std::marker::Model;

/// The name of a file as a string of a script holds it: 1 to 200 bytes from 20 to 7E hexadecimal other than `"` and `\`.
/// It takes no memory. Contracts see its bytes.
#[derive(Clone, Copy)]
pub struct FileName {
    bytes: [u8; MAX_STRING_BYTES],
    len: usize,
}

impl Model for FileName {
    ghost use Rattle.std.specs.Prelude.{ℕ, List, length, take};
    ghost use Rattle.line_grammar.specs.Inner.FileNames.{StoresFileName, padded_file_name};

    ghost Value = { List ℕ };

    ghost view = { λ n. take n.len n.bytes };

    ghost invariant = { λ n. StoresFileName n.bytes n.len };

    ghost inverse = { λ text. record { bytes = padded_file_name text; len = length text } };
}

impl FileName {
    /// The name with this text, or None where the text has not the form.
    #[tactic(auto, using(crate::specs::FileBytesLaws::stored))]
    pub fn new(text: &str) -> Option<FileName>
        ensures { result ≡ (if is_file_name text.now then Some text.now else None) }
    {
        let text = text.as_bytes();
        if !is_file_name(text) {
            return None;
        }
        let mut bytes = [0; MAX_STRING_BYTES];
        bytes[..text.len()].copy_from_slice(text);
        Some(FileName {
            bytes,
            len: text.len(),
        })
    }

    /// The text of the name.
    pub fn as_str(&self) -> &str
        ensures value { result.now ≡ self.now }
        ensures name { IsTrue (is_file_name self.now) }
    {
        match str::from_utf8(&self.bytes[..self.len]) {
            Ok(text) => text,
            Err(_) => unreachable!(),
        }
    }
}

// Whether the bytes have the form of a name.
pub(crate) fn is_file_name(text: &[u8]) -> bool
    ensures { result ≡ is_file_name text.now }
{
    !text.is_empty() && text.len() <= MAX_STRING_BYTES && are_text_bytes(text)
}

fn are_text_bytes(text: &[u8]) -> bool
    ensures { result ≡ list_all is_text_byte text.now }
{
    text.iter().all(|byte| is_text_byte(*byte))
}

fn is_text_byte(byte: u8) -> bool
    ensures { result ≡ is_text_byte byte }
{
    (0x20..=0x7E).contains(&byte) && byte != b'"' && byte != b'\\'
}
