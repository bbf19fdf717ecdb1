// The pieces that a sentence is cut into.
ghost use Rattle.std.specs.Prelude.{◌≡◌, IfOk};
ghost use Rattle.wiki_base.specs.Token.{IsToken};

use lists::{Copied, List, Memory};
use std::alloc::Global;
use std::marker::Model;

/// The greatest number of tokens of a sentence.
pub const MOST_TOKENS: usize = 40;

/// A piece of a sentence: text of at least one byte, and without a space. Seen as its bytes.
#[derive(Drop)]
pub struct Token {
    text: String,
}

impl Model for Token {
    ghost use Rattle.std.specs.Prelude.{List, ℕ};
    ghost use Rattle.std.specs.String.{string_bytes};
    ghost use Rattle.wiki_base.specs.Token.{IsToken};

    ghost Value = { List ℕ };

    ghost view = { λ t. string_bytes t.text };

    ghost invariant = { λ t. IsToken (string_bytes t.text) };
}

impl Token {
    /// A copy of this text.
    pub fn from_str(alloc: Global, s: &str) -> Result<Token, Memory>
        requires { IsToken s.now }
        ensures { IfOk result (λ token. token ≡ s.now) }
    {
        Ok(Token {
            text: String::from_str(alloc, s)?,
        })
    }

    pub fn as_str(&self) -> &str
        ensures value { result.now ≡ self.now }
        ensures token { IsToken self.now }
    {
        self.text.as_str()
    }
}

impl Copied for Token {
    fn copy(&self) -> Result<Self, Memory> {
        Ok(Token {
            text: self.text.clone()?,
        })
    }
}

/// A list of tokens.
pub type Tokens = List<Token>;
