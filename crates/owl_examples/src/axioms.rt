// Each form of axiom with what it says, worked out by hand.
use crate::told::{axioms, entities, reading};
use std::alloc::Global;
use std::test::Fail;

// The axioms of these lines in an ontology with the prefix : for u:.
fn said(alloc: Global, lines: &str) -> Result<String, Fail> {
    let text = format!(in alloc; "Prefix(:=<u:>)\nOntology(\n{lines}\n)\n")?;
    match reading(alloc, text.as_bytes()) {
        Some(Ok(doc)) => axioms(alloc, &doc.axioms),
        _ => Ok(String::from_str(alloc, "refused")?),
    }
}

// The entities of a text.
fn named(alloc: Global, text: &str) -> Result<String, Fail> {
    match reading(alloc, text.as_bytes()) {
        Some(Ok(doc)) => entities(alloc, &doc.entities),
        _ => Ok(String::from_str(alloc, "refused")?),
    }
}

#[test]
fn each_row_has_its_axioms(rt: HostRuntime) -> Result<(), Fail> {
    for (lines, wanted) in [
        ("", ""),
        ("SubClassOf(:A :B)", "1 < 2; "),
        ("SubObjectPropertyOf(:r :s)", "role 1 < 2; "),
        (
            "SubObjectPropertyOf(:r ObjectInverseOf(:s))",
            "role 1 < -2; ",
        ),
        ("ClassAssertion(:A :a)", "1 has 2; "),
        ("ObjectPropertyAssertion(:r :a :b)", "1 2 3; "),
        (
            "ObjectPropertyAssertion(ObjectInverseOf(:r) :a :a)",
            "-1 2 2; ",
        ),
        ("NegativeObjectPropertyAssertion(:r :a :b)", "no 1 2 3; "),
        ("SameIndividual(:a :b)", "1 = 2; "),
        ("DifferentIndividuals(:a :b)", "1 # 2; "),
        ("EquivalentClasses(:A :B)", "1 < 2; 2 < 1; "),
        ("EquivalentClasses(:A :B :C)", "1 < 2; 2 < 3; 3 < 1; "),
        (
            "EquivalentObjectProperties(:r :s :t)",
            "role 1 < 2; role 2 < 3; role 3 < 1; ",
        ),
        ("DisjointClasses(:A :B)", "1 < not 2; "),
        (
            "DisjointClasses(:A :B :C)",
            "1 < not 2; 1 < not 3; 2 < not 3; ",
        ),
        ("ObjectPropertyDomain(:r :A)", "some 1 thing < 2; "),
        ("ObjectPropertyRange(:r :A)", "thing < all 1 2; "),
        (
            "InverseObjectProperties(:r :s)",
            "role 1 < -2; role 2 < -1; ",
        ),
        ("SymmetricObjectProperty(:r)", "role 1 < -1; "),
        ("TransitiveObjectProperty(:r)", "transitive 1; "),
        (
            "TransitiveObjectProperty(ObjectInverseOf(:r))",
            "transitive 1; ",
        ),
        ("SameIndividual(:a :b :c)", "1 = 2; 2 = 3; "),
        ("DifferentIndividuals(:a :b :c)", "1 # 2; 1 # 3; 2 # 3; "),
    ] {
        assert!(rt; said(rt.alloc(), lines)?.as_str() == wanted, "{lines}");
    }
    Ok(())
}

#[test]
fn classes_are_in_normal_form(rt: HostRuntime) -> Result<(), Fail> {
    for (lines, wanted) in [
        ("ClassAssertion(owl:Thing :a)", "thing has 1; "),
        ("ClassAssertion(owl:Nothing :a)", "not thing has 1; "),
        (
            "ClassAssertion(ObjectComplementOf(owl:Nothing) :a)",
            "thing has 1; ",
        ),
        ("ClassAssertion(ObjectComplementOf(:A) :a)", "not 1 has 2; "),
        (
            "ClassAssertion(ObjectComplementOf(ObjectIntersectionOf(:A :B)) :a)",
            "or(not 1 not 2 ) has 3; ",
        ),
        (
            "ClassAssertion(ObjectUnionOf(:A :B :C) :a)",
            "or(1 2 3 ) has 4; ",
        ),
        (
            "ClassAssertion(ObjectComplementOf(ObjectSomeValuesFrom(:r :A)) :a)",
            "all 1 not 2 has 3; ",
        ),
        (
            "ClassAssertion(ObjectAllValuesFrom(ObjectInverseOf(:r) :A) :a)",
            "all -1 2 has 3; ",
        ),
        (
            "ClassAssertion(ObjectHasValue(:r :b) :a)",
            "value 1 2 has 3; ",
        ),
        (
            "DisjointClasses(:A ObjectUnionOf(:B ObjectComplementOf(:C)))",
            "1 < and(not 2 3 ); ",
        ),
    ] {
        assert!(rt; said(rt.alloc(), lines)?.as_str() == wanted, "{lines}");
    }
    Ok(())
}

#[test]
fn annotations_are_passed_over_wherever_they_may_stand(rt: HostRuntime) -> Result<(), Fail> {
    for (lines, wanted) in [
        ("Annotation(x:y \"a\\\"b\\\\\"@en)", ""),
        ("AnnotationAssertion(Annotation(_:b (= ( <i>))) z:z)", ""),
        ("SubAnnotationPropertyOf(:p :q)", ""),
        ("AnnotationPropertyDomain(:p <x>)", ""),
        ("AnnotationPropertyRange(owl:topObjectProperty)", ""),
        ("Declaration(AnnotationProperty(:p))", ""),
        ("Declaration(Annotation() Annotation(:q) Class(:A))", ""),
        (
            "SubClassOf(Annotation(:p Annotation(:q)) Annotation() :A :B)",
            "1 < 2; ",
        ),
        ("SameIndividual(Annotation(:p) :a :b)", "1 = 2; "),
    ] {
        assert!(rt; said(rt.alloc(), lines)?.as_str() == wanted, "{lines}");
    }
    Ok(())
}

#[test]
fn entities_are_numbered_as_they_come(rt: HostRuntime) -> Result<(), Fail> {
    for (text, wanted) in [
        ("Ontology()", ""),
        ("Prefix(e:=<x#>)Ontology(Declaration(Class(e:A)))", "C x#A "),
        (
            "Prefix(:=<x/>)Prefix(:=<y/>)Ontology(Declaration(Class(:A)))",
            "C y/A ",
        ),
        (
            "Prefix(:=<x>)Ontology(ClassAssertion(:A :A)ObjectPropertyAssertion(:A :A :b)ClassAssertion(:A :b))",
            "C xA I xA P xA I xb ",
        ),
        (
            "Ontology(Declaration(NamedIndividual(owl:a))Declaration(ObjectProperty(owl:a)))",
            "I http://www.w3.org/2002/07/owl#a P http://www.w3.org/2002/07/owl#a ",
        ),
        (
            "Ontology(Declaration(Class(owl:Thing)))",
            "C http://www.w3.org/2002/07/owl#Thing ",
        ),
        (
            "Prefix(o:=<http://www.w3.org/2002/07/>)Ontology(Declaration(Class(rdf:x))Declaration(Class(xsd:x)))",
            "C http://www.w3.org/1999/02/22-rdf-syntax-ns#x C http://www.w3.org/2001/XMLSchema#x ",
        ),
        (
            "Ontology(AnnotationAssertion(owl:a owl:b)Declaration(AnnotationProperty(owl:c)))",
            "",
        ),
    ] {
        assert!(rt; named(rt.alloc(), text)?.as_str() == wanted, "{text}");
    }
    Ok(())
}

#[test]
fn names_with_a_meaning_are_known_by_their_full_iris(rt: HostRuntime) -> Result<(), Fail> {
    let text =
        "Prefix(w:=<http://www.w3.org/2002/07/owl#No>)Ontology(ClassAssertion(w:thing w:thing))";
    match reading(rt.alloc(), text.as_bytes()) {
        Some(Ok(doc)) => {
            assert!(rt; axioms(rt.alloc(), &doc.axioms)?.as_str() == "not thing has 1; ");
        }
        _ => assert!(rt; "refused" == ""),
    }
    Ok(())
}
