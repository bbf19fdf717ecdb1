// The printing of classes and axioms.
ghost use Rattle.std.specs.Prelude.{◌≡◌, ◌++◌, [], codes, IfOk, OnOk, if◌then◌else◌};
ghost use Rattle.logic_terms.specs.Shown.{concept_of, concepts_of, claim_of};
ghost use Rattle.logic_terms.specs.Concept.{concepts_from};
ghost use Rattle.owl_text.specs.Texts.{word_text, role_text, one_argument, two_arguments, three_arguments, class_text, classes_text, claim_text};

use logic_terms::{Axiom, Class, Classes, Role};
use std::alloc::Global;
use wiki_base::{Memory, Spelled, Text8, WordId};

/// The text of a class, each word by its canonical form. Of a word that is not live a colon alone is printed.
pub fn print_class<L: Spelled>(alloc: Global, class: &Class, lexicon: &L) -> Result<Text8, Memory>
    ensures { IfOk result (λ text. text ≡ class_text (L.canonical_form lexicon.now) (concept_of class.now)) }
{
    let mut out = Text8::new(alloc);
    put_class(&mut out, class, lexicon)?;
    Ok(out)
}

/// The text of an axiom, each word by its canonical form. Of a word that is not live a colon alone is printed.
pub fn print_axiom<L: Spelled>(alloc: Global, axiom: &Axiom, lexicon: &L) -> Result<Text8, Memory>
    ensures { IfOk result (λ text. text ≡ claim_text (L.canonical_form lexicon.now) (claim_of «axiom».now)) }
{
    let mut out = Text8::new(alloc);
    put_axiom(&mut out, axiom, lexicon)?;
    Ok(out)
}

fn put_word<L: Spelled>(out: &mut Text8, word: WordId, lexicon: &L) -> Result<(), Memory>
    ensures { OnOk result (out.new ≡ out.old ++ word_text (L.canonical_form lexicon.now) word) }
{
    out.push_str(":")?;
    match lexicon.spelled(word) {
        Some(form) => out.push_str(form),
        None => Ok(()),
    }
}

fn put_role<L: Spelled>(out: &mut Text8, role: Role, lexicon: &L) -> Result<(), Memory>
    ensures { OnOk result (out.new ≡ out.old ++ role_text (L.canonical_form lexicon.now) role) }
{
    if role.inverted {
        put_about(out, "ObjectInverseOf(", role.id, lexicon)
    } else {
        put_word(out, role.id, lexicon)
    }
}

fn put_about<L: Spelled>(
    out: &mut Text8,
    name: &str,
    word: WordId,
    lexicon: &L,
) -> Result<(), Memory>
    ensures { OnOk result (out.new ≡ out.old ++ one_argument name.now (word_text (L.canonical_form lexicon.now) word)) }
{
    out.push_str(name)?;
    put_word(out, word, lexicon)?;
    out.push_str(")")
}

#[cycle(printing)]
fn put_class<L: Spelled>(out: &mut Text8, class: &Class, lexicon: &L) -> Result<(), Memory>
    ensures { OnOk result (out.new ≡ out.old ++ class_text (L.canonical_form lexicon.now) (concept_of class.now)) }
{
    match class {
        Class::Thing => out.push_str("owl:Thing"),
        Class::Named(word) => put_word(out, *word, lexicon),
        Class::Not(inner) => put_complement(out, "ObjectComplementOf(", inner, lexicon),
        Class::And(members) => put_members(out, "ObjectIntersectionOf(", members, lexicon),
        Class::Or(members) => put_members(out, "ObjectUnionOf(", members, lexicon),
        Class::Some(role, inner) => put_filled(out, "ObjectSomeValuesFrom(", *role, inner, lexicon),
        Class::All(role, inner) => put_filled(out, "ObjectAllValuesFrom(", *role, inner, lexicon),
        Class::Value(role, name) => put_value(out, "ObjectHasValue(", *role, *name, lexicon),
    }
}

#[cycle(printing)]
fn put_complement<L: Spelled>(
    out: &mut Text8,
    name: &str,
    inner: &Class,
    lexicon: &L,
) -> Result<(), Memory>
    ensures { OnOk result (out.new ≡ out.old ++ one_argument name.now (class_text (L.canonical_form lexicon.now) (concept_of inner.now))) }
{
    out.push_str(name)?;
    put_class(out, inner, lexicon)?;
    out.push_str(")")
}

#[cycle(printing)]
fn put_members<L: Spelled>(
    out: &mut Text8,
    name: &str,
    members: &Classes,
    lexicon: &L,
) -> Result<(), Memory>
    ensures { OnOk result (out.new ≡ out.old ++ one_argument name.now (classes_text (L.canonical_form lexicon.now) (concepts_from (concepts_of members.now)))) }
{
    out.push_str(name)?;
    put_each(out, members, lexicon)?;
    out.push_str(")")
}

#[cycle(printing)]
fn put_each<L: Spelled>(out: &mut Text8, members: &Classes, lexicon: &L) -> Result<(), Memory>
    ensures { OnOk result (out.new ≡ out.old ++ classes_text (L.canonical_form lexicon.now) (concepts_from (concepts_of members.now))) }
{
    for place in 0..members.len() {
        put_space(out, place > 0)?;
        put_class(out, members.get(place), lexicon)?;
    }
    Ok(())
}

#[cycle(printing)]
fn put_filled<L: Spelled>(
    out: &mut Text8,
    name: &str,
    role: Role,
    inner: &Class,
    lexicon: &L,
) -> Result<(), Memory>
    ensures { OnOk result (out.new ≡ out.old
        ++ two_arguments name.now (role_text (L.canonical_form lexicon.now) role) (class_text (L.canonical_form lexicon.now) (concept_of inner.now))) }
{
    out.push_str(name)?;
    put_role(out, role, lexicon)?;
    out.push_str(" ")?;
    put_class(out, inner, lexicon)?;
    out.push_str(")")
}

fn put_value<L: Spelled>(
    out: &mut Text8,
    kind: &str,
    role: Role,
    name: WordId,
    lexicon: &L,
) -> Result<(), Memory>
    ensures { OnOk result (out.new ≡ out.old
        ++ two_arguments kind.now (role_text (L.canonical_form lexicon.now) role) (word_text (L.canonical_form lexicon.now) name)) }
{
    out.push_str(kind)?;
    put_role(out, role, lexicon)?;
    out.push_str(" ")?;
    put_word(out, name, lexicon)?;
    out.push_str(")")
}

fn put_space(out: &mut Text8, wanted: bool) -> Result<(), Memory>
    ensures { OnOk result (out.new ≡ out.old ++ (if wanted then codes " " else [])) }
{
    if wanted { out.push_str(" ") } else { Ok(()) }
}

fn put_axiom<L: Spelled>(out: &mut Text8, stated: &Axiom, lexicon: &L) -> Result<(), Memory>
    ensures { OnOk result (out.new ≡ out.old ++ claim_text (L.canonical_form lexicon.now) (claim_of stated.now)) }
{
    match stated {
        Axiom::SubClass(below, above) => put_subclass(out, "SubClassOf(", below, above, lexicon),
        Axiom::SubRole(below, above) => put_subrole(
            out,
            "SubObjectPropertyOf(",
            *below,
            *above,
            lexicon,
        ),
        Axiom::Member(class, name) => put_member(out, "ClassAssertion(", class, *name, lexicon),
        Axiom::Related(role, from, to) => put_related(
            out,
            "ObjectPropertyAssertion(",
            *role,
            *from,
            *to,
            lexicon,
        ),
        Axiom::NotRelated(role, from, to) => put_related(
            out,
            "NegativeObjectPropertyAssertion(",
            *role,
            *from,
            *to,
            lexicon,
        ),
        Axiom::Equal(one, other) => put_names(out, "SameIndividual(", *one, *other, lexicon),
        Axiom::Differ(one, other) => put_names(out, "DifferentIndividuals(", *one, *other, lexicon),
        Axiom::Transitive(word) => put_about(out, "TransitiveObjectProperty(", *word, lexicon),
    }
}

fn put_subclass<L: Spelled>(
    out: &mut Text8,
    kind: &str,
    below: &Class,
    above: &Class,
    lexicon: &L,
) -> Result<(), Memory>
    ensures { OnOk result (out.new ≡ out.old
        ++ two_arguments kind.now (class_text (L.canonical_form lexicon.now) (concept_of below.now))
        (class_text (L.canonical_form lexicon.now) (concept_of above.now))) }
{
    out.push_str(kind)?;
    put_class(out, below, lexicon)?;
    out.push_str(" ")?;
    put_class(out, above, lexicon)?;
    out.push_str(")")
}

fn put_subrole<L: Spelled>(
    out: &mut Text8,
    kind: &str,
    below: Role,
    above: Role,
    lexicon: &L,
) -> Result<(), Memory>
    ensures { OnOk result (out.new ≡ out.old
        ++ two_arguments kind.now (role_text (L.canonical_form lexicon.now) below) (role_text (L.canonical_form lexicon.now) above)) }
{
    out.push_str(kind)?;
    put_role(out, below, lexicon)?;
    out.push_str(" ")?;
    put_role(out, above, lexicon)?;
    out.push_str(")")
}

fn put_member<L: Spelled>(
    out: &mut Text8,
    kind: &str,
    class: &Class,
    name: WordId,
    lexicon: &L,
) -> Result<(), Memory>
    ensures { OnOk result (out.new ≡ out.old
        ++ two_arguments kind.now (class_text (L.canonical_form lexicon.now) (concept_of class.now)) (word_text (L.canonical_form lexicon.now) name)) }
{
    out.push_str(kind)?;
    put_class(out, class, lexicon)?;
    out.push_str(" ")?;
    put_word(out, name, lexicon)?;
    out.push_str(")")
}

fn put_related<L: Spelled>(
    out: &mut Text8,
    kind: &str,
    role: Role,
    from: WordId,
    to: WordId,
    lexicon: &L,
) -> Result<(), Memory>
    ensures { OnOk result (out.new ≡ out.old
        ++ three_arguments kind.now (role_text (L.canonical_form lexicon.now) role) (word_text (L.canonical_form lexicon.now) from)
        (word_text (L.canonical_form lexicon.now) to)) }
{
    out.push_str(kind)?;
    put_role(out, role, lexicon)?;
    out.push_str(" ")?;
    put_word(out, from, lexicon)?;
    out.push_str(" ")?;
    put_word(out, to, lexicon)?;
    out.push_str(")")
}

fn put_names<L: Spelled>(
    out: &mut Text8,
    kind: &str,
    one: WordId,
    other: WordId,
    lexicon: &L,
) -> Result<(), Memory>
    ensures { OnOk result (out.new ≡ out.old
        ++ two_arguments kind.now (word_text (L.canonical_form lexicon.now) one) (word_text (L.canonical_form lexicon.now) other)) }
{
    out.push_str(kind)?;
    put_word(out, one, lexicon)?;
    out.push_str(" ")?;
    put_word(out, other, lexicon)?;
    out.push_str(")")
}
