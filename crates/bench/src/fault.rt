// Why a subject doesn't come to its end.

use codeco_reader::GrammarFault;
use lexicon::{FormFault, LexFault};
use std::alloc::{AllocError, AllocFailed};
use std::io;
use std::str::Utf8Error;
use wiki_base::{BadText, Memory};

#[derive(Debug, Drop)]
pub(crate) enum Fault {
    Subject,
    Memory,
    Io(io::Error),
    Text,
    Grammar(GrammarFault),
    Words,
    Outside,
    Lists,
    Axioms,
}

impl From<Memory> for Fault {
    fn from(_: Memory) -> Self {
        Fault::Memory
    }
}

impl From<AllocError> for Fault {
    fn from(_: AllocError) -> Self {
        Fault::Memory
    }
}

impl<T: Drop> From<AllocFailed<T>> for Fault {
    fn from(_: AllocFailed<T>) -> Self {
        Fault::Memory
    }
}

impl From<io::Error> for Fault {
    fn from(error: io::Error) -> Self {
        Fault::Io(error)
    }
}

impl From<Utf8Error> for Fault {
    fn from(_: Utf8Error) -> Self {
        Fault::Text
    }
}

impl From<GrammarFault> for Fault {
    fn from(fault: GrammarFault) -> Self {
        Fault::Grammar(fault)
    }
}

impl From<BadText> for Fault {
    fn from(_: BadText) -> Self {
        Fault::Words
    }
}

impl From<FormFault> for Fault {
    fn from(_: FormFault) -> Self {
        Fault::Words
    }
}

impl From<LexFault> for Fault {
    fn from(_: LexFault) -> Self {
        Fault::Words
    }
}
