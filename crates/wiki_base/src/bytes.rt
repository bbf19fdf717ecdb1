// Texts in UTF-8, and bytes that need not be.
ghost use Rattle.std.specs.Prelude.{◌≡◌, ◌++◌, [], IsUtf8, IfOk, OnOk, OnErr, MatchOption};
ghost use Rattle.std.specs.String.{string_bytes};

use lists::{Copied, List, Memory};
use std::alloc::Global;
use std::marker::Model;

/// Bytes that need not be a text: a word of the command line, a piece that came over a connection.
pub type Bytes = List<u8>;

/// One word of the command line.
pub type Arg = Bytes;

/// A text in UTF-8: a line, a page, what `show` gives. Seen as its bytes.
#[derive(Drop)]
pub struct Text8 {
    text: String,
}

/// A list of texts.
pub type Text8s = List<Text8>;

impl Model for Text8 {
    ghost use Rattle.std.specs.Prelude.{List, ℕ, IsUtf8};
    ghost use Rattle.std.specs.String.{string_bytes};

    ghost Value = { List ℕ };

    ghost view = { λ t. string_bytes t.text };

    ghost invariant = { λ t. IsUtf8 (string_bytes t.text) };
}

impl Text8 {
    /// The empty text, which takes no memory.
    pub fn new(alloc: Global) -> Text8
        ensures { result ≡ [] }
    {
        Text8 {
            text: String::new(alloc),
        }
    }

    /// A copy of this text.
    pub fn from_str(alloc: Global, text: &str) -> Result<Text8, Memory>
        ensures { IfOk result (λ made. made ≡ text.now) }
    {
        Ok(Text8 {
            text: String::from_str(alloc, text)?,
        })
    }

    /// The text of a string, which takes no memory.
    pub fn from_string(text: String) -> Text8
        ensures { result ≡ string_bytes text }
    {
        Text8 { text }
    }

    /// The text with these bytes, if they are UTF-8. It takes no memory.
    pub fn from_utf8(bytes: Vec<u8>) -> Option<Text8>
        ensures { MatchOption result (¬ (IsUtf8 bytes.items)) (λ made. made ≡ bytes.items) }
    {
        match String::from_utf8(bytes) {
            Ok(text) => Some(Text8 { text }),
            Err(_) => None,
        }
    }

    /// The text with these bytes, which are UTF-8. It takes no memory.
    pub fn from_vec(bytes: Vec<u8>) -> Text8
        requires { IsUtf8 bytes.items }
        ensures { result ≡ bytes.items }
    {
        match String::from_utf8(bytes) {
            Ok(text) => Text8 { text },
            Err(_) => unreachable!(),
        }
    }

    pub fn as_str(&self) -> &str
        ensures value { result.now ≡ self.now }
        ensures utf8 { IsUtf8 self.now }
    {
        self.text.as_str()
    }

    pub fn as_bytes(&self) -> &[u8]
        ensures value { result.now ≡ self.now }
        ensures utf8 { IsUtf8 self.now }
    {
        self.text.as_bytes()
    }

    /// The bytes, without copying them.
    pub fn into_vec(self) -> Vec<u8>
        ensures { result.items ≡ self }
    {
        self.text.into_bytes()
    }

    /// Adds a text at the end.
    pub fn push_str(&mut self, more: &str) -> Result<(), Memory>
        ensures ok { OnOk result (self.new ≡ self.old ++ more.now) }
        ensures err { OnErr result (self.new ≡ self.old) }
    {
        self.text.push_str(more)?;
        Ok(())
    }
}

impl Copied for Text8 {
    fn copy(&self) -> Result<Text8, Memory> {
        Ok(Text8 {
            text: self.text.clone()?,
        })
    }
}
