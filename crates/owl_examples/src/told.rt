// Readings as texts.
use logic_terms::{Axiom, Axioms, Class, Role};
use owl_grammar::read_owl;
use owl_reader::{Entities, EntityKind, OwlDoc, OwlFault};
use std::alloc::Global;
use std::test::Fail;

fn role(alloc: Global, out: &mut String, role: Role) -> Result<(), Fail> {
    let mark = if role.inverted { "-" } else { "" };
    out.push_str(&format!(in alloc; "{mark}{}", role.id.0)?)?;
    Ok(())
}

/// A class with the numbers of its entities.
pub fn class(alloc: Global, out: &mut String, told: &Class) -> Result<(), Fail> {
    match told {
        Class::Thing => out.push_str("thing")?,
        Class::Named(word) => out.push_str(&format!(in alloc; "{}", word.0)?)?,
        Class::Not(inner) => {
            out.push_str("not ")?;
            class(alloc, out, inner)?;
        }
        Class::And(members) => {
            out.push_str("and(")?;
            for place in 0..members.len() {
                class(alloc, out, members.get(place))?;
                out.push_str(" ")?;
            }
            out.push_str(")")?;
        }
        Class::Or(members) => {
            out.push_str("or(")?;
            for place in 0..members.len() {
                class(alloc, out, members.get(place))?;
                out.push_str(" ")?;
            }
            out.push_str(")")?;
        }
        Class::Some(property, inner) => {
            out.push_str("some ")?;
            role(alloc, out, *property)?;
            out.push_str(" ")?;
            class(alloc, out, inner)?;
        }
        Class::All(property, inner) => {
            out.push_str("all ")?;
            role(alloc, out, *property)?;
            out.push_str(" ")?;
            class(alloc, out, inner)?;
        }
        Class::Value(property, name) => {
            out.push_str("value ")?;
            role(alloc, out, *property)?;
            out.push_str(&format!(in alloc; " {}", name.0)?)?;
        }
    }
    Ok(())
}

fn related(
    alloc: Global,
    out: &mut String,
    property: Role,
    from: u32,
    to: u32,
) -> Result<(), Fail> {
    role(alloc, out, property)?;
    out.push_str(&format!(in alloc; " {from} {to}")?)?;
    Ok(())
}

fn axiom(alloc: Global, out: &mut String, told: &Axiom) -> Result<(), Fail> {
    match told {
        Axiom::SubClass(below, above) => {
            class(alloc, out, below)?;
            out.push_str(" < ")?;
            class(alloc, out, above)?;
        }
        Axiom::SubRole(below, above) => {
            out.push_str("role ")?;
            role(alloc, out, *below)?;
            out.push_str(" < ")?;
            role(alloc, out, *above)?;
        }
        Axiom::Member(of, name) => {
            class(alloc, out, of)?;
            out.push_str(&format!(in alloc; " has {}", name.0)?)?;
        }
        Axiom::Related(property, from, to) => related(alloc, out, *property, from.0, to.0)?,
        Axiom::NotRelated(property, from, to) => {
            out.push_str("no ")?;
            related(alloc, out, *property, from.0, to.0)?;
        }
        Axiom::Equal(one, other) => {
            out.push_str(&format!(in alloc; "{} = {}", one.0, other.0)?)?
        }
        Axiom::Differ(one, other) => {
            out.push_str(&format!(in alloc; "{} # {}", one.0, other.0)?)?
        }
        Axiom::Transitive(word) => out.push_str(&format!(in alloc; "transitive {}", word.0)?)?,
    }
    Ok(())
}

/// The axioms, with `; ` behind each.
pub fn axioms(alloc: Global, told: &Axioms) -> Result<String, Fail> {
    let mut out = String::new(alloc);
    for stated in told.as_slice() {
        axiom(alloc, &mut out, stated)?;
        out.push_str("; ")?;
    }
    Ok(out)
}

/// The entities, each by a letter of its kind and its IRI, with a space behind each.
pub fn entities(alloc: Global, told: &Entities) -> Result<String, Fail> {
    let mut out = String::new(alloc);
    for entity in told.as_slice() {
        out.push_str(match entity.kind {
            EntityKind::Class => "C ",
            EntityKind::Property => "P ",
            EntityKind::Individual => "I ",
        })?;
        if let Ok(iri) = str::from_utf8(entity.iri.as_bytes()) {
            out.push_str(iri)?;
        }
        out.push_str(" ")?;
    }
    Ok(out)
}

/// What a text of at most 16 megabytes says; None for a longer one.
pub fn reading(alloc: Global, text: &[u8]) -> Option<Result<OwlDoc, OwlFault>> {
    if text.len() > 16_777_216 {
        return None;
    }
    Some(read_owl(alloc, text))
}
