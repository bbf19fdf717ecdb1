// What entities are called in axioms.
ghost use Rattle.std.specs.Prelude.{◌≡◌, ◌≤◌, ◌++◌, codes, drop, false, length, map, IfOk, string_bytes};
ghost use Rattle.logic_terms.specs.Shown.{claim_of};
ghost use Rattle.owl_import.specs.Words.{enclosed, wordless, begins_with_less, is_inside, bare, axiom_text};

use lexicon::{Lexicon, MOST_WORDS};
use logic_terms::Axiom;
use owl_reader::{Entities, Entity};
use owl_text::print_axiom;
use std::alloc::{AllocError, Global};
use wiki_base::{Memory, Spelled, Text8, Text8s, WordId};

/// The words of entities, and those without a word by their IRIs.
#[derive(Clone, Copy)]
pub(crate) struct Called<'a> {
    pub words: &'a Lexicon,
    pub iris: &'a Text8s,
}

impl Spelled for Called<'_> {
    ghost use Rattle.owl_import.specs.Words.{called};

    ghost canonical_form = { λ it id. called it.words.now it.iris.now id };

    fn spelled(&self, id: WordId) -> Option<&str> {
        if let Some(form) = self.words.spelled(id) {
            return Some(form);
        }
        let place = (id.0 as usize).saturating_sub(1).saturating_sub(MOST_WORDS);
        match self.iris.as_slice().get(place) {
            Some(iri) => Some(iri.as_str()),
            None => None,
        }
    }
}

/// The entities behind the first `MOST_WORDS`, by their IRIs.
pub(crate) fn wordless(alloc: Global, entities: &Entities) -> Result<Text8s, Memory>
    ensures { IfOk result (λ iris. iris ≡ wordless entities.now) }
{
    let mut iris = Text8s::new(alloc);
    for place in MOST_WORDS..entities.len() {
        iris.push(enclosed(alloc, entities.get(place))?)?;
    }
    Ok(iris)
}

// The IRI of an entity between < and >.
fn enclosed(alloc: Global, entity: &Entity) -> Result<Text8, Memory>
    ensures { IfOk result (λ text. text ≡ enclosed entity.now) }
{
    let iri = String::from_utf8_lossy(alloc, entity.iri.as_slice())?;
    let mut text = Text8::from_str(alloc, "<")?;
    text.push_str(iri.as_str())?;
    text.push_str(">")?;
    Ok(text)
}

/// The text of an axiom, with what its entities are called.
pub(crate) fn axiom_text(
    alloc: Global,
    called: &Called<'_>,
    axiom: &Axiom,
) -> Result<Vec<u8>, Memory>
    ensures { IfOk result (λ text. text.items ≡ axiom_text called.now.words.now called.now.iris.now (claim_of «axiom».now)) }
{
    let text = print_axiom(alloc, axiom, called)?;
    Ok(bare(alloc, text.as_bytes())?)
}

// A text without the colons before what is between < and >.
fn bare(alloc: Global, text: &[u8]) -> Result<Vec<u8>, AllocError>
    ensures { IfOk result (λ made. made.items ≡ bare false text.now) }
{
    let mut made = Vec::new(alloc);
    let mut inside = false;
    for place in 0..text.len() {
        let b = text[place];
        let before_iri = b == b':' && begins_with_less(&text[place + 1..]);
        if inside || !before_iri {
            made.push(b)?;
        }
        inside = is_inside(inside, b);
    }
    Ok(made)
}

fn begins_with_less(text: &[u8]) -> bool
    ensures { result ≡ begins_with_less text.now }
{
    match text {
        [first, ..] => *first == b'<',
        [] => false,
    }
}

fn is_inside(inside: bool, b: u8) -> bool
    ensures { result ≡ is_inside inside b }
{
    if inside { b != b'>' } else { b == b'<' }
}
