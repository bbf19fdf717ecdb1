// Why a text spells nothing.
ghost use Rattle.std.specs.Prelude.{◌≡◌};
ghost use Rattle.codeco_text.specs.declared.syntax_fault.SyntaxFault.TheVariants as fault;

use wiki_base::Memory;

/// Why a text spells nothing.
#[derive(Clone, Copy, Debug, PartialEq, Eq)]
pub enum SyntaxFault {
    /// The text is no sentence of the notation: no sentence has the text's bytes up to and with the one at this place,
    /// or the text goes on to a sentence and this is its length.
    At(usize),
    /// An allocation was refused.
    Memory,
}

impl From<Memory> for SyntaxFault {
    ghost from_gives = { λ _ e. e ≡ fault.Memory };

    fn from(_: Memory) -> Self {
        SyntaxFault::Memory
    }
}
