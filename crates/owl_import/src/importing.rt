// The import of a whole file.
ghost use Rattle.std.specs.Prelude.{◌≤◌, IfOk, IfErr, length};
ghost use Rattle.ace_grammar.specs.Grammar.{ace_grammar};
ghost use Rattle.logic_terms.specs.Shown.{claims_of};
ghost use Rattle.owl_grammar.specs.Faults.{IsFault};
ghost use Rattle.owl_import.specs.Imported.{MakesLines, Imports};

use crate::calling::{Called, wordless};
use crate::sentences::Lines;
use crate::words::{put_words, words_of};
use ace_grammar::built_in;
use owl_grammar::read_owl;
use owl_reader::{OwlDoc, OwlFault};
use std::alloc::Global;
use wiki_base::{Bytes, Memory, Text8};

/// What is made of an ontology.
#[derive(Drop)]
pub struct Imported {
    /// The lines of the requests that make a wiki of it, each with its newline: a word for each entity, and then a sentence for each
    /// axiom that has one.
    pub requests: Text8,
    /// A line for each axiom that is left out: its number in the file from 1, a space, and the axiom in functional-style syntax.
    pub left_out: Bytes,
}

/// Makes requests of an ontology's file, by the wiki's own grammar. A class becomes a noun, a property a verb, an individual a name,
/// and each axiom that has a sentence that sentence, in the article of its first word. Left out are the axioms without a sentence, among them
/// those that speak of an entity behind the first 5,000, which get no word; and those behind the first 2,000 sentences. Of a text
/// that is no such file the fault of the first token that has one is told.
pub fn import(alloc: Global, text: &[u8]) -> Result<Imported, OwlFault>
    requires { length text.now ≤ 16777216 }
    ensures made { IfOk result (λ made. Imports text.now made.requests made.left_out) }
    ensures fault { IfErr result (IsFault text.now) }
{
    match read_owl(alloc, text) {
        Ok(doc) => Ok(made_of(alloc, &doc)?),
        Err(fault) => Err(fault),
    }
}

// What is made of the entities and axioms of a file.
fn made_of(alloc: Global, doc: &OwlDoc) -> Result<Imported, Memory>
    ensures { IfOk result (λ made. MakesLines ace_grammar doc.now.entities (claims_of doc.now.axioms) made.requests made.left_out) }
{
    let grammar = built_in(alloc)?;
    let naming = words_of(alloc, &grammar, &doc.entities)?;
    let iris = wordless(alloc, &doc.entities)?;
    let called = Called {
        words: naming.words(),
        iris: &iris,
    };
    let mut requests = Text8::new(alloc);
    put_words(alloc, &mut requests, called.words)?;
    let mut lines = Lines::new(alloc, requests);
    lines.sort_all(alloc, &grammar, &called, &doc.axioms)?;
    let Lines {
        requests,
        left_out,
        ..
    } = lines;
    Ok(Imported {
        requests,
        left_out: Bytes::from_vec(left_out),
    })
}
