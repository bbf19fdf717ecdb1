// A meaning as it is told.
ghost use Rattle.std.specs.Prelude.{◌≡◌, IfOk, map};
ghost use Rattle.lexicon.specs.Words.{canonical_form_of};
ghost use Rattle.logic_terms.specs.Shown.{claims_of};
ghost use Rattle.owl_text.specs.Texts.{claim_text};
ghost use Rattle.wiki_parts.specs.Found.{meaning_shown};
ghost use Rattle.plain_wiki.specs.Telling.{told_meaning};

use crate::meanings::Sense;
use lexicon::Lexicon;
use logic_terms::Axioms;
use owl_text::{print_axiom, print_class};
use std::alloc::Global;
use wiki_base::{Memory, Text8s};
use wiki_talk::Meant;

/// A meaning as it is told: axioms and classes in functional syntax, with the canonical forms of words.
pub fn told_meaning(alloc: Global, lexicon: &Lexicon, sense: &Sense) -> Result<Meant, Memory>
    ensures { IfOk result (λ told. told ≡ told_meaning lexicon.now (meaning_shown sense.now)) }
{
    match sense {
        Sense::Stating(axioms) => Ok(Meant::Axioms(told_axioms(alloc, lexicon, axioms)?)),
        Sense::Asking(class) => Ok(Meant::Class(print_class(alloc, class, lexicon)?)),
        Sense::Outside(cause) | Sense::AskingOutside(cause) => Ok(Meant::Outside(*cause)),
    }
}

fn told_axioms(alloc: Global, lexicon: &Lexicon, axioms: &Axioms) -> Result<Text8s, Memory>
    ensures { IfOk result (λ texts. texts ≡ map (claim_text (canonical_form_of lexicon.now.live)) (claims_of axioms.now)) }
{
    let mut texts = Text8s::new(alloc);
    for place in 0..axioms.len() {
        texts.push(print_axiom(alloc, axioms.get(place), lexicon)?)?;
    }
    Ok(texts)
}
