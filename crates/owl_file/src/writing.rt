// The file of a wiki's words and axioms.
ghost use Rattle.std.specs.Prelude.{◌≡◌, ◌++◌, codes, map, All, IfOk, OnOk};
ghost use Rattle.lexicon.specs.Kinds.{IsComplete};
ghost use Rattle.lexicon.specs.Words.{IsLexicon, canonical_form_of};
ghost use Rattle.logic_terms.specs.Shown.{claim_of, claims_of};
ghost use Rattle.owl_text.specs.Texts.{claim_text};
ghost use Rattle.owl_file.specs.Written.{entity_kind, canonical_text, entity, declaration, text_of, file_text};
ghost use Rattle.owl_file.specs.ReadBack.{ReadsBack};

use lexicon::{Kind, Lexicon, Word};
use logic_terms::{Axiom, Axioms};
use owl_text::print_axiom;
use std::alloc::Global;
use wiki_base::{Memory, Text8};

/// The ontology of all live words and these axioms, as a file of the profile that docs/OWL.md tells: a declaration of each word in
/// order of number, and the axioms in order. Of a word that is not live an axiom has a colon alone.
pub fn write_owl(alloc: Global, lexicon: &Lexicon, axioms: &Axioms) -> Result<Text8, Memory>
    ensures text { IfOk result (λ text. text ≡ file_text lexicon.now (claims_of axioms.now)) }
    // As a file it says these axioms, with each word's place among the live words as its number.
    ensures read_back { IfOk result (ReadsBack lexicon.now (claims_of axioms.now)) }
{
    let mut out = Text8::new(alloc);
    put_line(&mut out, "Prefix(:=<urn:acewiki:>)")?;
    put_line(&mut out, "Ontology(<urn:acewiki>")?;
    put_declarations(&mut out, lexicon)?;
    put_axioms(alloc, &mut out, lexicon, axioms)?;
    put_line(&mut out, ")")?;
    Ok(out)
}

fn put_declarations(out: &mut Text8, lexicon: &Lexicon) -> Result<(), Memory>
    ensures text { OnOk result (out.new ≡ out.old ++ text_of (map declaration lexicon.now.live)) }
    ensures lexicon { IsLexicon lexicon.now }
{
    for place in 0..lexicon.len() {
        put_declared(out, lexicon.get(place))?;
    }
    Ok(())
}

fn put_declared(out: &mut Text8, word: &Word) -> Result<(), Memory>
    requires { IsComplete word.now.forms }
    ensures { OnOk result (out.new ≡ out.old ++ (declaration word.now ++ codes "\n")) }
{
    put_declaration(out, word)?;
    out.push_str("\n")
}

fn put_declaration(out: &mut Text8, word: &Word) -> Result<(), Memory>
    requires { IsComplete word.now.forms }
    ensures { OnOk result (out.new ≡ out.old ++ declaration word.now) }
{
    put_around(out, "Declaration(", word)
}

fn put_around(out: &mut Text8, name: &str, word: &Word) -> Result<(), Memory>
    requires { IsComplete word.now.forms }
    ensures { OnOk result (out.new ≡ out.old ++ (name.now ++ (entity word.now ++ codes ")"))) }
{
    out.push_str(name)?;
    put_entity(out, word)?;
    out.push_str(")")
}

fn put_entity(out: &mut Text8, word: &Word) -> Result<(), Memory>
    requires { IsComplete word.now.forms }
    ensures { OnOk result (out.new ≡ out.old ++ entity word.now) }
{
    out.push_str(entity_kind(word.forms.kind))?;
    out.push_str("(:")?;
    out.push_str(canonical_text(word))?;
    out.push_str(")")
}

fn canonical_text(word: &Word) -> &str
    requires { IsComplete word.now.forms }
    ensures { result.now ≡ canonical_text word.now }
{
    word.forms.canonical().as_str()
}

fn entity_kind(kind: Kind) -> &'static str
    ensures { result.now ≡ entity_kind kind }
{
    match kind {
        Kind::Noun => "Class",
        Kind::Name => "NamedIndividual",
        Kind::Of | Kind::Verb | Kind::Adjective => "ObjectProperty",
    }
}

fn put_axioms(
    alloc: Global,
    out: &mut Text8,
    lexicon: &Lexicon,
    axioms: &Axioms,
) -> Result<(), Memory>
    ensures { OnOk result (out.new ≡ out.old ++ text_of (map (claim_text (canonical_form_of lexicon.now.live)) (claims_of axioms.now))) }
{
    for place in 0..axioms.len() {
        put_axiom(alloc, out, lexicon, axioms.get(place))?;
    }
    Ok(())
}

fn put_axiom(
    alloc: Global,
    out: &mut Text8,
    lexicon: &Lexicon,
    stated: &Axiom,
) -> Result<(), Memory>
    ensures { OnOk result (out.new ≡ out.old ++ (claim_text (canonical_form_of lexicon.now.live) (claim_of stated.now) ++ codes "\n")) }
{
    let text = print_axiom(alloc, stated, lexicon)?;
    put_line(out, text.as_str())
}

fn put_line(out: &mut Text8, line: &str) -> Result<(), Memory>
    ensures { OnOk result (out.new ≡ out.old ++ (line.now ++ codes "\n")) }
{
    out.push_str(line)?;
    out.push_str("\n")
}
