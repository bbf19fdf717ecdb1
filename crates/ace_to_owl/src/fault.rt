// Why a part of a mapping gives nothing.
ghost use Rattle.std.specs.Prelude.{◌≡◌};
ghost use Rattle.ace_to_owl.specs.declared.fault.Fault.TheVariants as fault;

use logic_terms::Cause;
use wiki_base::Memory;

/// A cause why the structure is outside the mapping, or want of memory.
#[derive(Clone, Copy, Debug, PartialEq, Eq)]
pub enum Fault {
    Outside(Cause),
    Memory,
}

impl From<Memory> for Fault {
    ghost from_gives = { λ _ e. e ≡ fault.Memory };

    fn from(_: Memory) -> Self {
        Fault::Memory
    }
}

impl From<Cause> for Fault {
    ghost from_gives = { λ cause e. e ≡ fault.Outside cause };

    fn from(cause: Cause) -> Self {
        Fault::Outside(cause)
    }
}
