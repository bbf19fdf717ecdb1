// Why a text is no file of the profile.
ghost use Rattle.std.specs.Prelude.{◌≡◌};
ghost use Rattle.owl_reader.specs.declared.faults.OwlFault.TheVariants as fault;
ghost use Rattle.owl_reader.specs.declared.faults.Refusal.TheVariants as refusal;

use std::alloc::AllocFailed;
use wiki_base::Memory;

/// The most parentheses that may be open at once.
pub const MOST_OPEN: usize = 200;

/// The first fault of a text, at the byte where its token begins.
#[derive(Clone, Copy, Debug, PartialEq, Eq)]
pub enum OwlFault {
    /// No such token has a place there, the byte begins no token, or the text ends too early.
    Syntax(u32),
    /// A construct or a name that the profile leaves out.
    Unsupported(u32),
    /// A name whose prefix is not declared.
    Prefix(u32),
    /// The 201st parenthesis that is open at once.
    TooDeep(u32),
    /// An allocation was refused.
    Memory,
}

/// A fault, apart from its place.
#[derive(Clone, Copy)]
pub enum Trouble {
    Syntax,
    Unsupported,
    Prefix,
    TooDeep,
}

/// Why a token was not taken.
#[derive(Clone, Copy)]
pub enum Refusal {
    Trouble(Trouble),
    Memory,
}

impl From<Memory> for Refusal {
    ghost from_gives = { λ _ e. e ≡ refusal.Memory };

    fn from(_: Memory) -> Self {
        Refusal::Memory
    }
}

impl From<Memory> for OwlFault {
    ghost from_gives = { λ _ e. e ≡ fault.Memory };

    fn from(_: Memory) -> Self {
        OwlFault::Memory
    }
}

impl<T: Drop> From<AllocFailed<T>> for Refusal {
    ghost from_gives = { λ _ e. e ≡ refusal.Memory };

    fn from(_: AllocFailed<T>) -> Self {
        Refusal::Memory
    }
}
