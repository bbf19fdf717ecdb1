// Why a text isn't typed.
ghost use Rattle.std.specs.Prelude.{◌≡◌};
ghost use Rattle.editor.specs.declared.faults.TypeFault.TheVariants.{Memory as out_of_memory};

use wiki_base::Memory;

/// Why a text isn't typed.
#[derive(Clone, Copy, Debug, PartialEq, Eq)]
pub enum TypeFault {
    /// It isn't in the menu.
    NotOffered,
    Memory,
}

impl From<Memory> for TypeFault {
    ghost from_gives = { λ _ fault. fault ≡ out_of_memory };

    fn from(_: Memory) -> Self {
        TypeFault::Memory
    }
}
