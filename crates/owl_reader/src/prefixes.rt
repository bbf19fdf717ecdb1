// Prefixes, each with its IRI.
ghost use Rattle.std.specs.Prelude.{◌≡◌, ◌<◌, [], length, IfOk, IfSome, OnOk};
ghost use Rattle.std.specs.Option.{option_copied};
ghost use Rattle.owl_reader.specs.Names.{declare, iri_of, first_prefixes, colon_at};

use indexmap::IndexMap;
use std::alloc::Global;
use std::marker::Model;
use wiki_base::Memory;

/// The prefixes that are declared.
#[derive(Drop)]
pub struct Prefixes {
    declared: IndexMap<Vec<u8>, Vec<u8>>,
}

impl Model for Prefixes {
    ghost use Rattle.std.specs.Prelude.{List, map};
    ghost use Rattle.owl_reader.specs.Names.{Declared};

    ghost Value = { Declared };

    ghost view = { λ a. map (λ e. (e.0.items, e.1.items)) a.declared.entries };
}

impl Prefixes {
    fn empty(alloc: Global) -> Prefixes
        ensures { result ≡ [] }
    {
        Prefixes {
            declared: IndexMap::new(alloc),
        }
    }

    /// What is declared from the start.
    pub fn new(alloc: Global) -> Result<Prefixes, Memory>
        ensures { IfOk result (λ made. made ≡ first_prefixes) }
    {
        let mut made = Prefixes::empty(alloc);
        made.declare(alloc, b"owl", b"http://www.w3.org/2002/07/owl#")?;
        made.declare(
            alloc,
            b"rdf",
            b"http://www.w3.org/1999/02/22-rdf-syntax-ns#",
        )?;
        made.declare(alloc, b"rdfs", b"http://www.w3.org/2000/01/rdf-schema#")?;
        made.declare(alloc, b"xsd", b"http://www.w3.org/2001/XMLSchema#")?;
        Ok(made)
    }

    /// Declares a prefix, in place of an earlier declaration of it.
    pub fn declare(&mut self, alloc: Global, prefix: &[u8], iri: &[u8]) -> Result<(), Memory>
        ensures { OnOk result (self.new ≡ declare self.old prefix.now iri.now) }
    {
        let prefix = Vec::from_slice(alloc, prefix)?;
        let iri = Vec::from_slice(alloc, iri)?;
        self.declared.insert(prefix, iri)?;
        Ok(())
    }

    pub fn iri_of(&self, prefix: &[u8]) -> Option<&[u8]>
        ensures { option_copied result ≡ iri_of self.now prefix.now }
    {
        match self.declared.get(prefix) {
            Some(iri) => Some(iri.as_slice()),
            None => None,
        }
    }
}

/// How many bytes stand before the first colon.
pub fn colon_at(word: &[u8]) -> Option<usize>
    ensures place { result ≡ colon_at 0 word.now }
    ensures within { IfSome result (λ n. n < length word.now) }
{
    for n in 0..word.len() {
        if word[n] == b':' {
            return Some(n);
        }
    }
    None
}
