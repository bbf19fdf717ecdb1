// Axioms as an ontology in functional-style syntax.

use crate::choices::Base;
use crate::fault::Fault;
use logic_terms::{Axiom, Class, Classes, Role};
use std::alloc::Global;
use std::collections::BTreeSet;
use wiki_base::WordId;

// The words that axioms mention.
#[derive(Drop)]
struct Mentioned {
    classes: BTreeSet<u32>,
    roles: BTreeSet<u32>,
}

impl Mentioned {
    fn note(&mut self, axiom: &Axiom) -> Result<(), Fault> {
        match axiom {
            Axiom::SubClass(below, above) => {
                self.note_class(below)?;
                self.note_class(above)
            }
            Axiom::Member(class, _) => self.note_class(class),
            Axiom::Related(role, _, _) => self.note_role(*role),
            Axiom::NotRelated(role, _, _) => self.note_role(*role),
            Axiom::SubRole(below, above) => {
                self.note_role(*below)?;
                self.note_role(*above)
            }
            Axiom::Equal(_, _) => Ok(()),
            Axiom::Differ(_, _) => Ok(()),
            Axiom::Transitive(word) => {
                let _ = self.roles.insert(word.0)?;
                Ok(())
            }
        }
    }

    fn note_role(&mut self, role: Role) -> Result<(), Fault> {
        let _ = self.roles.insert(role.id.0)?;
        Ok(())
    }

    #[cycle(noting)]
    fn note_class(&mut self, class: &Class) -> Result<(), Fault> {
        match class {
            Class::Thing => Ok(()),
            Class::Named(word) => {
                let _ = self.classes.insert(word.0)?;
                Ok(())
            }
            Class::Not(inner) => self.note_class(inner),
            Class::And(members) => self.note_classes(members),
            Class::Or(members) => self.note_classes(members),
            Class::Some(role, inner) => {
                self.note_role(*role)?;
                self.note_class(inner)
            }
            Class::All(role, inner) => {
                self.note_role(*role)?;
                self.note_class(inner)
            }
            Class::Value(role, _) => self.note_role(*role),
        }
    }

    #[cycle(noting)]
    fn note_classes(&mut self, classes: &Classes) -> Result<(), Fault> {
        for place in 0..classes.len() {
            self.note_class(classes.get(place))?;
        }
        Ok(())
    }
}

// Prints axioms, each on a line, behind the declarations of their words.
pub(crate) fn print_base<R: Print>(rt: &R, alloc: Global, base: &Base) -> Result<(), Fault> {
    let mut mentioned = Mentioned {
        classes: BTreeSet::new(alloc),
        roles: BTreeSet::new(alloc),
    };
    for place in 0..base.axioms.len() {
        mentioned.note(base.axioms.get(place))?;
    }
    println!(rt; "Prefix(:=<http://example.org/#>)")?;
    println!(rt; "Prefix(owl:=<http://www.w3.org/2002/07/owl#>)")?;
    println!(rt; "Ontology(<http://example.org/>")?;
    for word in mentioned.classes.iter() {
        println!(rt; "Declaration(Class(:c{word}))")?;
    }
    for word in mentioned.roles.iter() {
        println!(rt; "Declaration(ObjectProperty(:r{word}))")?;
    }
    for name in base.names.as_slice() {
        let number = name.0;
        println!(rt; "Declaration(NamedIndividual(:n{number}))")?;
    }
    for place in 0..base.axioms.len() {
        print_axiom(rt, base.axioms.get(place))?;
    }
    println!(rt; ")")?;
    Ok(())
}

fn print_axiom<R: Print>(rt: &R, axiom: &Axiom) -> Result<(), Fault> {
    match axiom {
        Axiom::SubClass(below, above) => {
            print!(rt; "SubClassOf(")?;
            print_class(rt, below)?;
            print!(rt; " ")?;
            print_class(rt, above)?;
            println!(rt; ")")?;
            Ok(())
        }
        Axiom::SubRole(below, above) => {
            print!(rt; "SubObjectPropertyOf(")?;
            print_role(rt, *below)?;
            print!(rt; " ")?;
            print_role(rt, *above)?;
            println!(rt; ")")?;
            Ok(())
        }
        Axiom::Member(class, name) => {
            print!(rt; "ClassAssertion(")?;
            print_class(rt, class)?;
            print_names(rt, &[*name])
        }
        Axiom::Related(role, from, to) => {
            print!(rt; "ObjectPropertyAssertion(")?;
            print_role(rt, *role)?;
            print_names(rt, &[*from, *to])
        }
        Axiom::NotRelated(role, from, to) => {
            print!(rt; "NegativeObjectPropertyAssertion(")?;
            print_role(rt, *role)?;
            print_names(rt, &[*from, *to])
        }
        Axiom::Equal(one, other) => {
            print!(rt; "SameIndividual(")?;
            print_names(rt, &[*one, *other])
        }
        Axiom::Differ(one, other) => {
            print!(rt; "DifferentIndividuals(")?;
            print_names(rt, &[*one, *other])
        }
        Axiom::Transitive(word) => {
            let number = word.0;
            println!(rt; "TransitiveObjectProperty(:r{number})")?;
            Ok(())
        }
    }
}

// The names that end an axiom.
fn print_names<R: Print>(rt: &R, names: &[WordId]) -> Result<(), Fault> {
    for name in names {
        let number = name.0;
        print!(rt; " :n{number}")?;
    }
    println!(rt; ")")?;
    Ok(())
}

fn print_role<R: Print>(rt: &R, role: Role) -> Result<(), Fault> {
    let number = role.id.0;
    if role.inverted {
        print!(rt; "ObjectInverseOf(:r{number})")?;
    } else {
        print!(rt; ":r{number}")?;
    }
    Ok(())
}

#[cycle(printing)]
fn print_class<R: Print>(rt: &R, class: &Class) -> Result<(), Fault> {
    match class {
        Class::Thing => {
            print!(rt; "owl:Thing")?;
            Ok(())
        }
        Class::Named(word) => {
            let number = word.0;
            print!(rt; ":c{number}")?;
            Ok(())
        }
        Class::Not(inner) => {
            print!(rt; "ObjectComplementOf(")?;
            print_class(rt, inner)?;
            print!(rt; ")")?;
            Ok(())
        }
        Class::And(members) => {
            print!(rt; "ObjectIntersectionOf(")?;
            print_classes(rt, members)
        }
        Class::Or(members) => {
            print!(rt; "ObjectUnionOf(")?;
            print_classes(rt, members)
        }
        Class::Some(role, inner) => {
            print!(rt; "ObjectSomeValuesFrom(")?;
            print_role(rt, *role)?;
            print!(rt; " ")?;
            print_class(rt, inner)?;
            print!(rt; ")")?;
            Ok(())
        }
        Class::All(role, inner) => {
            print!(rt; "ObjectAllValuesFrom(")?;
            print_role(rt, *role)?;
            print!(rt; " ")?;
            print_class(rt, inner)?;
            print!(rt; ")")?;
            Ok(())
        }
        Class::Value(role, name) => {
            print!(rt; "ObjectHasValue(")?;
            print_role(rt, *role)?;
            let number = name.0;
            print!(rt; " :n{number})")?;
            Ok(())
        }
    }
}

#[cycle(printing)]
fn print_classes<R: Print>(rt: &R, classes: &Classes) -> Result<(), Fault> {
    for place in 0..classes.len() {
        print!(rt; " ")?;
        print_class(rt, classes.get(place))?;
    }
    print!(rt; ")")?;
    Ok(())
}
