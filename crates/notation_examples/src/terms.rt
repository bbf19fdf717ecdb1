// What unification does, and a grammar with its copy.
ghost use Rattle.std.specs.Prelude.{IfOk, All};
ghost use Rattle.codeco_terms.specs.Unification.{HasRoom};

use codeco_terms::{
    Category, Env, Feats, Features, Grammar, Ground, Rules, Symbol, Symbols, Term, Vals, Value,
    unify,
};
use std::alloc::Global;
use std::test::Fail;
use wiki_base::{Copied, Memory, WordId};

// A category whose features 0 and 1 are the variable 1.
fn twice(alloc: Global) -> Result<Category, Memory>
    ensures { IfOk result (λ cat. All (λ p. HasRoom p.1) cat.feats) }
{
    let mut feats = Feats::new(alloc);
    feats.push((0, Term::Var(1)))?;
    feats.push((1, Term::Var(1)))?;
    Ok(Category { name: 7, feats })
}

fn ground(name: u16, one: Value, other: Value) -> Ground {
    let mut vals = Vals::new();
    vals.push(0, one);
    vals.push(1, other);
    Ground { name, vals }
}

#[test]
fn a_variable_takes_the_value_that_it_needs(rt: HostRuntime) -> Result<(), Fail> {
    let cat = twice(rt.alloc())?;
    let word = Value::Word(WordId(9));
    let mut env = Env::new();
    assert!(rt; unify(&cat, &ground(7, word, word), &mut env));
    assert!(rt; env.get(1) == Some(word));
    assert!(rt; env.get(2) == None);
    Ok(())
}

#[test]
fn names_and_values_that_differ_leave_the_map_as_it_was(rt: HostRuntime) -> Result<(), Fail> {
    let cat = twice(rt.alloc())?;
    let mut env = Env::new();
    assert!(rt; !unify(&cat, &ground(7, Value::Pos(1), Value::Pos(2)), &mut env));
    assert!(rt; !unify(&cat, &ground(8, Value::Pos(1), Value::Pos(1)), &mut env));
    assert!(rt; env.copy().get(1) == None);
    Ok(())
}

#[test]
fn a_grammar_is_copied_with_its_names(rt: HostRuntime) -> Result<(), Fail> {
    let alloc = rt.alloc();
    let mut names = Symbols::new(alloc);
    names.push(Symbol::from_slice(alloc, b"text")?)?;
    let none = Symbols::new(alloc);
    let grammar = Grammar::new(
        Features::new(alloc),
        none.copy()?,
        none,
        names,
        Rules::new(alloc),
    );
    assert!(rt; grammar.copy()?.categories().len() == 1);
    Ok(())
}
