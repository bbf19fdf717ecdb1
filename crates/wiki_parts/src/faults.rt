// Why a request changes nothing.
ghost use Rattle.std.specs.Prelude.{◌≡◌};
ghost use Rattle.wiki_parts.specs.declared.faults.Fault.TheVariants.{Memory as out_of_memory};

use std::alloc::AllocFailed;
use wiki_base::Memory;
use wiki_talk::Refusal;

/// Why a request changes nothing.
#[derive(Drop)]
pub enum Fault {
    Refused(Refusal),
    Memory,
}

impl From<Memory> for Fault {
    ghost from_gives = { λ _ fault. fault ≡ out_of_memory };

    fn from(_: Memory) -> Self {
        Fault::Memory
    }
}

impl<T: Drop> From<AllocFailed<T>> for Fault {
    ghost from_gives = { λ _ fault. fault ≡ out_of_memory };

    fn from(_: AllocFailed<T>) -> Self {
        Fault::Memory
    }
}
