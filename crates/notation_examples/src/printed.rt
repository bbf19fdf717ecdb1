// A checked grammar with its text, worked out by hand.
ghost use Rattle.std.specs.Prelude.{◌≡◌, IfOk, map};
ghost use Rattle.notation_examples.specs.Smallest.{undeclared_feature, only_rules, smallest_grammar};

use codeco_checked::CheckedGrammar;
use codeco_printer::print_grammar;
use codeco_terms::{
    Category, Declared, Element, Elements, Feats, Feature, Features, Grammar, Rule, Rules, Symbol,
    Symbols,
};
use std::alloc::Global;
use std::test::Fail;
use wiki_base::Memory;

fn symbols(alloc: Global, texts: &[&[u8]]) -> Result<Symbols, Memory>
    ensures { IfOk result (λ made. made ≡ map (λ text. text.now) texts.now) }
{
    let mut made = Symbols::new(alloc);
    for text in texts {
        made.push(Symbol::from_slice(alloc, text)?)?;
    }
    Ok(made)
}

static FIRST_FEATURES: [&[u8]; 4] = [b"num", b"vow", b"form", b"w"];

static FIRST_ATOMS: [&[u8]; 7] = [b"sg", b"pl", b"yes", b"no", b"third", b"inf", b"part"];

static FIRST_CATEGORIES: [&[u8]; 6] = [b"name", b"noun", b"of", b"verb", b"adj", b"text"];

static ONE_TERMINAL: [&[u8]; 1] = [b"a"];

fn undeclared(alloc: Global, names: &[&[u8]]) -> Result<Features, Memory>
    ensures { IfOk result (λ made. made ≡ map (λ name. undeclared_feature name.now) names.now) }
{
    let mut made = Features::new(alloc);
    for name in names {
        made.push(Feature {
            name: Symbol::from_slice(alloc, name)?,
            declared: Declared::Undeclared,
        })?;
    }
    Ok(made)
}

fn only_rule(alloc: Global) -> Result<Rules, Memory>
    ensures { IfOk result (λ made. made ≡ only_rules) }
{
    let mut body = Elements::new(alloc);
    body.push(Element::Terminal(0))?;
    let mut rules = Rules::new(alloc);
    rules.push(Rule {
        label: None,
        head: Category {
            name: 5,
            feats: Feats::new(alloc),
        },
        closing: false,
        body,
    })?;
    Ok(rules)
}

fn smallest_grammar(alloc: Global) -> Result<Grammar, Memory>
    ensures { IfOk result (λ made. made ≡ smallest_grammar) }
{
    Ok(Grammar::new(
        undeclared(alloc, &FIRST_FEATURES)?,
        symbols(alloc, &FIRST_ATOMS)?,
        symbols(alloc, &ONE_TERMINAL)?,
        symbols(alloc, &FIRST_CATEGORIES)?,
        only_rule(alloc)?,
    ))
}

#[test]
fn a_checked_grammar_is_printed(rt: HostRuntime) -> Result<(), Fail> {
    let grammar = CheckedGrammar::admit(smallest_grammar(rt.alloc())?);
    assert!(rt; print_grammar(rt.alloc(), &grammar)?.as_bytes() == b"text-->[a].".as_slice());
    Ok(())
}
