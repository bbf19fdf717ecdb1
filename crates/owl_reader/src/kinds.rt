// What a file has: entities, and constructs with what stands in them.
use wiki_base::{Bytes, List};

/// What an entity is.
#[derive(Clone, Copy, Debug, PartialEq, Eq, Hash)]
pub enum EntityKind {
    Class,
    Property,
    Individual,
}

/// An entity: what it is, and its full IRI.
#[derive(Drop)]
pub struct Entity {
    pub kind: EntityKind,
    pub iri: Bytes,
}

/// The entities of a file, each once, in the order in which they come.
pub type Entities = List<Entity>;

/// What may stand at a place between parentheses.
#[derive(Clone, Copy)]
pub enum Sort {
    /// An annotation, a declaration or an axiom.
    Item,
    Class,
    Property,
    Individual,
    /// What a declaration declares.
    Declared,
    /// The name of a declared entity.
    Name(EntityKind),
    /// The name of a property.
    PropertyName,
    /// The name of an annotation property.
    AnnotationName,
}

/// What has parentheses.
#[derive(Clone, Copy)]
pub enum Construct {
    Ontology,
    Declaration,
    /// In a declaration.
    Entity(EntityKind),
    /// In a declaration.
    AnnotationProperty,
    SubClassOf,
    EquivalentClasses,
    DisjointClasses,
    SubObjectPropertyOf,
    EquivalentObjectProperties,
    ObjectPropertyDomain,
    ObjectPropertyRange,
    InverseObjectProperties,
    SymmetricObjectProperty,
    TransitiveObjectProperty,
    SameIndividual,
    DifferentIndividuals,
    ClassAssertion,
    ObjectPropertyAssertion,
    NegativeObjectPropertyAssertion,
    ObjectIntersectionOf,
    ObjectUnionOf,
    ObjectComplementOf,
    ObjectSomeValuesFrom,
    ObjectAllValuesFrom,
    ObjectHasValue,
    ObjectInverseOf,
}

/// What a construct makes.
#[derive(Clone, Copy)]
pub enum Makes {
    Class,
    Property,
    /// An entity that is declared.
    Declared,
    Axioms,
    /// The end of the file.
    End,
}
