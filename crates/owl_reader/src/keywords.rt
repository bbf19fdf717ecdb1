// The keywords, and what stands in each construct.
ghost use Rattle.std.specs.Prelude.{◌≡◌, codes, [], ◌∷◌};
ghost use Rattle.owl_reader.specs.Grammar.{
  same_bytes,
  is_among,
  entity_keyword,
  keyword,
  item_constructs,
  class_constructs,
  property_constructs,
  declared_constructs,
  construct_among,
  sorts,
  repeats,
  makes_of,
  takes_annotations,
  is_annotation,
};
ghost use Rattle.owl_reader.specs.declared.kinds.Sort.TheVariants.{Name};

use crate::kinds::{Construct, EntityKind, Makes, Sort};

/// What is looked for by its keyword among an ontology's items, the frequent ones first.
const ITEMS: [Construct; 16] = [
    Construct::SubClassOf,
    Construct::ClassAssertion,
    Construct::ObjectPropertyAssertion,
    Construct::Declaration,
    Construct::EquivalentClasses,
    Construct::DisjointClasses,
    Construct::SubObjectPropertyOf,
    Construct::EquivalentObjectProperties,
    Construct::ObjectPropertyDomain,
    Construct::ObjectPropertyRange,
    Construct::InverseObjectProperties,
    Construct::SymmetricObjectProperty,
    Construct::TransitiveObjectProperty,
    Construct::SameIndividual,
    Construct::DifferentIndividuals,
    Construct::NegativeObjectPropertyAssertion,
];

const CLASSES: [Construct; 6] = [
    Construct::ObjectIntersectionOf,
    Construct::ObjectUnionOf,
    Construct::ObjectComplementOf,
    Construct::ObjectSomeValuesFrom,
    Construct::ObjectAllValuesFrom,
    Construct::ObjectHasValue,
];

const PROPERTIES: [Construct; 1] = [Construct::ObjectInverseOf];

const DECLARED: [Construct; 4] = [
    Construct::Entity(EntityKind::Class),
    Construct::Entity(EntityKind::Property),
    Construct::Entity(EntityKind::Individual),
    Construct::AnnotationProperty,
];

const TWO_CLASSES: [Sort; 2] = [Sort::Class, Sort::Class];

const TWO_PROPERTIES: [Sort; 2] = [Sort::Property, Sort::Property];

const TWO_INDIVIDUALS: [Sort; 2] = [Sort::Individual, Sort::Individual];

const PROPERTY_AND_CLASS: [Sort; 2] = [Sort::Property, Sort::Class];

const PROPERTY_AND_TWO: [Sort; 3] = [Sort::Property, Sort::Individual, Sort::Individual];

pub fn same_bytes(left: &[u8], right: &[u8]) -> bool
    ensures { result ≡ same_bytes left.now right.now }
{
    left == right
}

fn entity_keyword(kind: EntityKind) -> &'static [u8]
    ensures { result.now ≡ entity_keyword kind }
{
    match kind {
        EntityKind::Class => b"Class",
        EntityKind::Property => b"ObjectProperty",
        EntityKind::Individual => b"NamedIndividual",
    }
}

fn keyword(construct: Construct) -> &'static [u8]
    ensures { result.now ≡ keyword construct }
{
    match construct {
        Construct::Ontology => b"Ontology",
        Construct::Declaration => b"Declaration",
        Construct::Entity(kind) => entity_keyword(kind),
        Construct::AnnotationProperty => b"AnnotationProperty",
        Construct::SubClassOf => b"SubClassOf",
        Construct::EquivalentClasses => b"EquivalentClasses",
        Construct::DisjointClasses => b"DisjointClasses",
        Construct::SubObjectPropertyOf => b"SubObjectPropertyOf",
        Construct::EquivalentObjectProperties => b"EquivalentObjectProperties",
        Construct::ObjectPropertyDomain => b"ObjectPropertyDomain",
        Construct::ObjectPropertyRange => b"ObjectPropertyRange",
        Construct::InverseObjectProperties => b"InverseObjectProperties",
        Construct::SymmetricObjectProperty => b"SymmetricObjectProperty",
        Construct::TransitiveObjectProperty => b"TransitiveObjectProperty",
        Construct::SameIndividual => b"SameIndividual",
        Construct::DifferentIndividuals => b"DifferentIndividuals",
        Construct::ClassAssertion => b"ClassAssertion",
        Construct::ObjectPropertyAssertion => b"ObjectPropertyAssertion",
        Construct::NegativeObjectPropertyAssertion => b"NegativeObjectPropertyAssertion",
        Construct::ObjectIntersectionOf => b"ObjectIntersectionOf",
        Construct::ObjectUnionOf => b"ObjectUnionOf",
        Construct::ObjectComplementOf => b"ObjectComplementOf",
        Construct::ObjectSomeValuesFrom => b"ObjectSomeValuesFrom",
        Construct::ObjectAllValuesFrom => b"ObjectAllValuesFrom",
        Construct::ObjectHasValue => b"ObjectHasValue",
        Construct::ObjectInverseOf => b"ObjectInverseOf",
    }
}

/// The construct of the keyword, among these.
fn construct_among(constructs: &[Construct], word: &[u8]) -> Option<Construct>
    ensures { result ≡ construct_among constructs.now word.now }
{
    for construct in constructs {
        if same_bytes(word, keyword(*construct)) {
            return Some(*construct);
        }
    }
    None
}

pub fn item_named(word: &[u8]) -> Option<Construct>
    ensures { result ≡ construct_among item_constructs word.now }
{
    construct_among(&ITEMS, word)
}

pub fn class_named(word: &[u8]) -> Option<Construct>
    ensures { result ≡ construct_among class_constructs word.now }
{
    construct_among(&CLASSES, word)
}

pub fn property_named(word: &[u8]) -> Option<Construct>
    ensures { result ≡ construct_among property_constructs word.now }
{
    construct_among(&PROPERTIES, word)
}

pub fn declared_named(word: &[u8]) -> Option<Construct>
    ensures { result ≡ construct_among declared_constructs word.now }
{
    construct_among(&DECLARED, word)
}

/// What must stand in a construct, in order.
pub fn sorts(construct: Construct) -> &'static [Sort]
    ensures { result.now ≡ sorts construct }
{
    match construct {
        Construct::Ontology => &[],
        Construct::Declaration => &[Sort::Declared],
        Construct::Entity(kind) => names(kind),
        Construct::AnnotationProperty => &[Sort::AnnotationName],
        Construct::SubClassOf => &TWO_CLASSES,
        Construct::EquivalentClasses => &TWO_CLASSES,
        Construct::DisjointClasses => &TWO_CLASSES,
        Construct::SubObjectPropertyOf => &TWO_PROPERTIES,
        Construct::EquivalentObjectProperties => &TWO_PROPERTIES,
        Construct::ObjectPropertyDomain => &PROPERTY_AND_CLASS,
        Construct::ObjectPropertyRange => &PROPERTY_AND_CLASS,
        Construct::InverseObjectProperties => &TWO_PROPERTIES,
        Construct::SymmetricObjectProperty => &[Sort::Property],
        Construct::TransitiveObjectProperty => &[Sort::Property],
        Construct::SameIndividual => &TWO_INDIVIDUALS,
        Construct::DifferentIndividuals => &TWO_INDIVIDUALS,
        Construct::ClassAssertion => &[Sort::Class, Sort::Individual],
        Construct::ObjectPropertyAssertion => &PROPERTY_AND_TWO,
        Construct::NegativeObjectPropertyAssertion => &PROPERTY_AND_TWO,
        Construct::ObjectIntersectionOf => &TWO_CLASSES,
        Construct::ObjectUnionOf => &TWO_CLASSES,
        Construct::ObjectComplementOf => &[Sort::Class],
        Construct::ObjectSomeValuesFrom => &PROPERTY_AND_CLASS,
        Construct::ObjectAllValuesFrom => &PROPERTY_AND_CLASS,
        Construct::ObjectHasValue => &[Sort::Property, Sort::Individual],
        Construct::ObjectInverseOf => &[Sort::PropertyName],
    }
}

fn names(kind: EntityKind) -> &'static [Sort]
    ensures { result.now ≡ Name kind ∷ [] }
{
    match kind {
        EntityKind::Class => &[Sort::Name(EntityKind::Class)],
        EntityKind::Property => &[Sort::Name(EntityKind::Property)],
        EntityKind::Individual => &[Sort::Name(EntityKind::Individual)],
    }
}

/// What may stand behind those.
pub fn repeats(construct: Construct) -> Option<Sort>
    ensures { result ≡ repeats construct }
{
    match construct {
        Construct::Ontology => Some(Sort::Item),
        Construct::EquivalentClasses => Some(Sort::Class),
        Construct::DisjointClasses => Some(Sort::Class),
        Construct::EquivalentObjectProperties => Some(Sort::Property),
        Construct::SameIndividual => Some(Sort::Individual),
        Construct::DifferentIndividuals => Some(Sort::Individual),
        Construct::ObjectIntersectionOf => Some(Sort::Class),
        Construct::ObjectUnionOf => Some(Sort::Class),
        _ => None,
    }
}

/// What a construct makes.
pub fn makes_of(construct: Construct) -> Makes
    ensures { result ≡ makes_of construct }
{
    match construct {
        Construct::Ontology => Makes::End,
        Construct::Entity(_) => Makes::Declared,
        Construct::AnnotationProperty => Makes::Declared,
        Construct::ObjectIntersectionOf => Makes::Class,
        Construct::ObjectUnionOf => Makes::Class,
        Construct::ObjectComplementOf => Makes::Class,
        Construct::ObjectSomeValuesFrom => Makes::Class,
        Construct::ObjectAllValuesFrom => Makes::Class,
        Construct::ObjectHasValue => Makes::Class,
        Construct::ObjectInverseOf => Makes::Property,
        _ => Makes::Axioms,
    }
}

/// Whether annotations may stand in front.
pub fn takes_annotations(makes: Makes) -> bool
    ensures { result ≡ takes_annotations makes }
{
    matches!(makes, Makes::Axioms)
}

/// Whether the keyword's construct is passed over among the items.
pub fn is_annotation(word: &[u8]) -> bool
    ensures { result ≡ is_annotation word.now }
{
    same_bytes(word, b"Annotation")
        || same_bytes(word, b"AnnotationAssertion")
        || same_bytes(word, b"SubAnnotationPropertyOf")
        || same_bytes(word, b"AnnotationPropertyDomain")
        || same_bytes(word, b"AnnotationPropertyRange")
}
