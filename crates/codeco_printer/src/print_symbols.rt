// Symbols, printed one behind the other.
ghost use Rattle.std.specs.Prelude.{◌≡◌, OnOk};
ghost use Rattle.codeco_text.specs.Notation.{sign_bytes};

use codeco_text::Sign;
use std::alloc::Global;
use std::marker::Model;
use wiki_base::{Bytes, Memory};

/// The bytes of a sign.
pub fn sign_bytes(sign: Sign) -> &'static [u8]
    ensures { result.now ≡ sign_bytes sign }
{
    match sign {
        Sign::Colon => b":",
        Sign::Comma => b",",
        Sign::Stop => b".",
        Sign::OpenBrace => b"{",
        Sign::CloseBrace => b"}",
        Sign::OpenParen => b"(",
        Sign::CloseParen => b")",
        Sign::Normal => b"-->",
        Sign::Closing => b"~~>",
        Sign::Dollar => b"$",
        Sign::Hash => b"#",
        Sign::Scope => b"//",
        Sign::Weak => b">",
        Sign::Strong => b">>",
        Sign::Back => b"<",
        Sign::NoBack => b"/<",
        Sign::Plus => b"+",
        Sign::Minus => b"-",
        Sign::Question => b"?",
    }
}

/// A text that grows by whole symbols, with the spaces that keep words apart.
#[derive(Drop)]
pub struct Printer {
    bytes: Vec<u8>,
    after_word: bool,
}

impl Model for Printer {
    ghost use Rattle.codeco_printer.specs.Writing.{Output};

    ghost Value = { Output };

    ghost view = { λ p. record { bytes = p.bytes.items; after_word = p.after_word } };
}

impl Printer {
    ghost use Rattle.codeco_printer.specs.Writing.{Output, nothing, put, put_word};
    ghost use Rattle.codeco_text.specs.declared.symbols.Lexeme.TheVariants as lexeme;

    /// No symbols, which takes no memory.
    pub fn new(alloc: Global) -> Self
        ensures { result ≡ nothing }
    {
        Printer {
            bytes: Vec::new(alloc),
            after_word: false,
        }
    }

    /// The bytes of the text, which takes no memory.
    pub fn into_text(self) -> Bytes
        ensures { result ≡ self.bytes }
    {
        Bytes::from_vec(self.bytes)
    }

    /// Adds a name, a variable or a keyword.
    pub fn word(&mut self, word: &[u8]) -> Result<(), Memory>
        ensures { OnOk result (self.new ≡ put_word self.old word.now) }
    {
        if self.after_word {
            self.bytes.push(b' ')?;
        }
        self.bytes.extend_from_slice(word)?;
        self.after_word = true;
        Ok(())
    }

    /// Adds a sign.
    pub fn sign(&mut self, sign: Sign) -> Result<(), Memory>
        ensures { OnOk result (self.new ≡ put self.old (lexeme.Sign sign)) }
    {
        self.bytes.extend_from_slice(sign_bytes(sign))?;
        self.after_word = false;
        Ok(())
    }

    /// Adds a terminal in its brackets.
    pub fn terminal(&mut self, terminal: &[u8]) -> Result<(), Memory>
        ensures { OnOk result (self.new ≡ put self.old (lexeme.Terminal terminal.now)) }
    {
        self.bytes.push(b'[')?;
        self.bytes.extend_from_slice(terminal)?;
        self.bytes.push(b']')?;
        self.after_word = false;
        Ok(())
    }
}
