// What the grammar has, read through the public views.
use ace_grammar::built_in;
use codeco_terms::{Element, Label, Symbols};
use std::process::Abort;
use std::test::Fail;

/// A sign for each kind of element.
fn sign(element: &Element) -> u8 {
    match element {
        Element::Terminal(_) => b'[',
        Element::Preterminal(_) => b'$',
        Element::Sub(_) => b'c',
        Element::Position(_) => b'#',
        Element::Opener => b'/',
        Element::Forward(_) => b'>',
        Element::Strong(_) => b'!',
        Element::Back(_, _) => b'<',
        Element::NoBack(_) => b'-',
    }
}

/// Asserts that this is the number of a symbol with this text.
fn assert_named(rt: &impl Abort, symbols: &Symbols, number: u16, text: &[u8]) {
    let place = number as usize;
    assert!(rt; place < symbols.len());
    assert!(rt; symbols.get(place).as_bytes() == text);
}

#[test]
fn has_its_declarations_and_its_rules(rt: HostRuntime) -> Result<(), Fail> {
    let built = built_in(rt.alloc())?;
    assert!(rt; built.is_labelled());
    let grammar = built.grammar();
    assert!(rt; grammar.features().len() == 7);
    assert!(rt; grammar.atoms().len() == 10);
    assert!(rt; grammar.terminals().len() == 31);
    assert!(rt; grammar.categories().len() == 37);
    assert!(rt; grammar.rules().len() == 81);
    assert_named(&rt, grammar.terminals(), 13, b"something");
    assert_named(&rt, grammar.atoms(), 6, b"part");
    Ok(())
}

#[test]
fn rules_are_those_of_the_text(rt: HostRuntime) -> Result<(), Fail> {
    let rows: [(usize, Label, &[u8], bool, &[u8]); 7] = [
        (4, Label::If, b"s", true, b"[/c[c"),
        (17, Label::Only, b"vp", true, b"$[/$#>"),
        (43, Label::Or, b"relr", false, b"c[c"),
        (54, Label::Refer, b"pron", false, b"<["),
        (56, Label::Name, b"term", false, b"$#!"),
        (59, Label::Var, b"term", false, b"-[#>"),
        (81, Label::Whichobj, b"q", true, b"[c[c$"),
    ];
    let built = built_in(rt.alloc())?;
    let grammar = built.grammar();
    for (number, label, head, closing, body) in rows {
        assert!(rt; number >= 1 && number <= grammar.rules().len());
        let rule = grammar.rules().get(number - 1);
        assert!(rt; rule.label == Some(label), "label of rule {number}");
        assert_named(&rt, grammar.categories(), rule.head.name, head);
        assert!(rt; rule.closing == closing, "rule {number}");
        assert!(rt; rule.body.len() == body.len(), "rule {number}");
        for (element, kind) in rule.body.as_slice().iter().zip(body) {
            assert!(rt; sign(element) == *kind, "rule {number}");
        }
    }
    Ok(())
}
