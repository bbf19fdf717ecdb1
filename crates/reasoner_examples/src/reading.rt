// Axioms in a short notation, each operator behind what it takes.
use logic_terms::{Axiom, Axioms, Class, Classes, Names, Role};
use std::alloc::Global;
use std::test::Fail;
use wiki_base::WordId;

// What was read and is not taken yet, and the axioms so far.
#[derive(Drop)]
struct Shelf {
    classes: Vec<Class>,
    roles: Vec<Role>,
    names: Vec<WordId>,
    axioms: Axioms,
}

/// The first names, `1` to `3`: so many of them, and three where there are more.
pub fn names_of(alloc: Global, count: u8) -> Result<Names, Fail> {
    match count {
        0 => Ok(Names::new(alloc)),
        1 => Ok(Names::from_vec(vec![in alloc; WordId(49)]?)),
        2 => Ok(Names::from_vec(vec![in alloc; WordId(49), WordId(50)]?)),
        _ => Ok(Names::from_vec(vec![in alloc; WordId(49), WordId(50), WordId(51)]?)),
    }
}

/// So many names, from number 0 on.
pub fn first_names(alloc: Global, count: u32) -> Result<Names, Fail> {
    let mut names = Names::new(alloc);
    for number in 0..count {
        names.push(WordId(number))?;
    }
    Ok(names)
}

/// The axioms of a text. `T` is everything, `A` to `H` are class words, digits are names, `r`, `s` and `t` are relation
/// words, and `R`, `S` and `U` their inverses. `!`, `&` and `|` take one or two classes, `?` (some) and `*` (all) a role and
/// a class, `=` (value) a role and a name. Axioms: `<` two classes, `^` two roles, `:` a class and a name, `+` (related) and
/// `-` (not related) a role and two names, `~` (equal) and `#` (different) two names, `@` (transitive) a role. What is taken
/// stands in order.
pub fn read(alloc: Global, text: &str) -> Result<Axioms, Fail> {
    let mut shelf = Shelf {
        classes: Vec::new(alloc),
        roles: Vec::new(alloc),
        names: Vec::new(alloc),
        axioms: Axioms::new(alloc),
    };
    for sign in text.as_bytes() {
        match *sign {
            b' ' => {}
            b'0'..=b'9' => shelf.names.push(WordId(u32::from(*sign)))?,
            b'r'..=b't' => shelf.roles.push(role(*sign, false))?,
            b'R' => shelf.roles.push(role(b'r', true))?,
            b'S' => shelf.roles.push(role(b's', true))?,
            b'U' => shelf.roles.push(role(b't', true))?,
            b'<' | b'^' | b':' | b'+' | b'-' | b'~' | b'#' | b'@' => {
                let axiom = axiom_of(&mut shelf, *sign)?;
                shelf.axioms.push(axiom)?;
            }
            _ => {
                let class = class_of(alloc, &mut shelf, *sign)?;
                shelf.classes.push(class)?;
            }
        }
    }
    Ok(shelf.axioms)
}

fn role(sign: u8, inverted: bool) -> Role {
    Role {
        id: WordId(u32::from(sign)),
        inverted,
    }
}

fn class_of(alloc: Global, shelf: &mut Shelf, sign: u8) -> Result<Class, Fail> {
    match sign {
        b'T' => Ok(Class::Thing),
        b'A'..=b'H' => Ok(Class::Named(WordId(u32::from(sign)))),
        b'!' => Ok(Class::Not(Box::new(alloc, class(shelf)?)?)),
        b'&' => Ok(Class::And(pair(alloc, shelf)?)),
        b'|' => Ok(Class::Or(pair(alloc, shelf)?)),
        b'?' => Ok(Class::Some(last_role(shelf)?, Box::new(alloc, class(shelf)?)?)),
        b'*' => Ok(Class::All(last_role(shelf)?, Box::new(alloc, class(shelf)?)?)),
        b'=' => Ok(Class::Value(last_role(shelf)?, name(shelf)?)),
        _ => Err("a sign of the notation".into()),
    }
}

fn axiom_of(shelf: &mut Shelf, sign: u8) -> Result<Axiom, Fail> {
    match sign {
        b'<' => {
            let above = class(shelf)?;
            Ok(Axiom::SubClass(class(shelf)?, above))
        }
        b'^' => {
            let above = last_role(shelf)?;
            Ok(Axiom::SubRole(last_role(shelf)?, above))
        }
        b':' => Ok(Axiom::Member(class(shelf)?, name(shelf)?)),
        b'@' => Ok(Axiom::Transitive(last_role(shelf)?.id)),
        _ => {
            let to = name(shelf)?;
            let from = name(shelf)?;
            match sign {
                b'+' => Ok(Axiom::Related(last_role(shelf)?, from, to)),
                b'-' => Ok(Axiom::NotRelated(last_role(shelf)?, from, to)),
                b'~' => Ok(Axiom::Equal(from, to)),
                _ => Ok(Axiom::Differ(from, to)),
            }
        }
    }
}

fn pair(alloc: Global, shelf: &mut Shelf) -> Result<Classes, Fail> {
    let other = class(shelf)?;
    let one = class(shelf)?;
    Ok(Classes::from_vec(vec![in alloc; one, other]?))
}

fn class(shelf: &mut Shelf) -> Result<Class, Fail> {
    Ok(shelf.classes.pop().ok_or("a class")?)
}

fn last_role(shelf: &mut Shelf) -> Result<Role, Fail> {
    Ok(shelf.roles.pop().ok_or("a role")?)
}

fn name(shelf: &mut Shelf) -> Result<WordId, Fail> {
    Ok(shelf.names.pop().ok_or("a name")?)
}
