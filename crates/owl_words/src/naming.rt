// The words that entities get.
ghost use Rattle.std.specs.Prelude.{◌≡◌, [], IfOk, OnOk, OnErr, None};
ghost use Rattle.lexicon.specs.Words.{fullness};
ghost use Rattle.owl_words.specs.Attempts.{attempted};
ghost use Rattle.owl_words.specs.Chosen.{AreRefused, AddsWord, AddsFree, Tries};

use crate::attempts::attempted;
use crate::bases::base;
use crate::counts::{Counts, key, note, noted};
use codeco_terms::Grammar;
use lexicon::{Kind, LexFault, Lexicon};
use std::alloc::Global;
use std::collections::HashMap;
use std::marker::Model;
use wiki_base::Memory;

/// The words that entities got so far, in order, beside the words of a grammar. It is seen as these; inside, a table has for each
/// base how many attempts are refused, so that entities of one name aren't tried from the first.
#[derive(Drop)]
pub struct Naming {
    words: Lexicon,
    counts: Counts,
}

impl Model for Naming {
    ghost use Rattle.lexicon.specs.Words.{Listed};
    ghost use Rattle.owl_words.specs.Known.{AreKnown};

    ghost Value = { Listed };

    ghost view = { λ n. n.words };

    ghost invariant = { λ n. AreKnown n.words n.counts };
}

impl Naming {
    /// No words beside those of the grammar.
    pub fn new(alloc: Global, grammar: &Grammar) -> Result<Self, Memory>
        ensures words { IfOk result (λ naming. naming.live ≡ []) }
        ensures terminals { IfOk result (λ naming. naming.terminals ≡ grammar.now.terminals) }
        ensures last { IfOk result (λ naming. naming.last ≡ 0) }
    {
        Ok(Naming {
            words: Lexicon::new(alloc, grammar)?,
            counts: HashMap::new(alloc),
        })
    }

    /// The words.
    pub fn words(&self) -> &Lexicon
        ensures { result.now ≡ self.now }
    {
        &self.words
    }

    /// Adds a word of the kind for an entity of the IRI. Its forms are those of what the IRI calls it, or where one of them is
    /// taken, reserved or too long, those of the first that is free with a hyphen and the letters of a number behind it.
    pub fn add(&mut self, alloc: Global, kind: Kind, iri: &[u8]) -> Result<(), Memory>
        requires { fullness self.old ≡ None }
        ensures { OnOk result (AddsWord self.old kind iri.now self.new) }
    {
        let base = base(alloc, kind, iri)?;
        let key = key(alloc, kind, &base)?;
        let known = noted(&self.counts, key.as_str());
        let attempt = add_free(alloc, &mut self.words, kind, &base, known)?;
        note(&mut self.counts, key, attempt);
        Ok(())
    }
}

// Adds a word with the first forms from these characters that are free, where so many attempts are known to be refused, and tells
// the attempt. So many words that none were free would not fit in memory.
fn add_free(
    alloc: Global,
    words: &mut Lexicon,
    kind: Kind,
    base: &[char],
    known: u32,
) -> Result<u32, Memory>
    requires room { fullness words.old ≡ None }
    requires refused { AreRefused words.old kind base.now known }
    ensures added { IfOk result (λ attempt. AddsFree words.old kind base.now attempt words.new) }
    ensures same { OnErr result (words.new ≡ words.old) }
{
    for attempt in known..u32::MAX {
        let added = try_add(alloc, words, kind, base, attempt)?;
        if added {
            return Ok(attempt);
        }
    }
    Err(Memory)
}

// Adds a word with the forms at an attempt, if there are some that are free, and tells whether it was added.
fn try_add(
    alloc: Global,
    words: &mut Lexicon,
    kind: Kind,
    base: &[char],
    attempt: u32,
) -> Result<bool, Memory>
    requires { fullness words.old ≡ None }
    ensures tries { IfOk result (λ added. Tries words.old (attempted kind base.now attempt) added words.new) }
    ensures same { OnErr result (words.new ≡ words.old) }
{
    let Some(forms) = attempted(alloc, kind, base, attempt)? else {
        return Ok(false);
    };
    match words.add(&forms) {
        Ok(_) => Ok(true),
        Err(LexFault::Memory) => Err(Memory),
        Err(_) => Ok(false),
    }
}
