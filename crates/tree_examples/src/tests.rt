// The words are Mary, cat and see, with the numbers 1, 2 and 3.
use crate::rows::{
    EVERY_CAT_SEES_THE_CAT, IF_X_SEES_Y, M_N_R_E, MARY_SEES_A_CAT, REFERENCES, Row, SMALL_GRAMMAR,
    tree_of,
};
use ace_grammar::built_in;
use codeco_checked::CheckedGrammar;
use codeco_reader::read_grammar;
use codeco_terms::Value;
use derivation_trees::{Cut, Tree, check_tree, cut, show};
use lexicon::{Kind, Lexicon, forms};
use std::alloc::Global;
use std::process::Abort;
use std::test::Fail;
use wiki_base::{Text, WordId};

const NO_PLACE: usize = usize::MAX;

fn words(alloc: Global, grammar: &CheckedGrammar) -> Result<Lexicon, Fail> {
    let mut lexicon = Lexicon::new(alloc, grammar.grammar())?;
    for (kind, text) in [
        (Kind::Name, "Mary"),
        (Kind::Noun, "cat"),
        (Kind::Verb, "see"),
    ] {
        let mut given = Vec::new(alloc);
        given.push(Text::read(alloc, text)?)?;
        let forms = forms(alloc, kind, given.as_slice())?;
        if lexicon.add(&forms).is_err() {
            return Err(Fail::new("a word that is free"));
        }
    }
    Ok(lexicon)
}

// Whether the tree derives the text, whose tokens are shown as the same text.
fn derives(rt: &impl Abort, alloc: Global, text: &str, tree: &Tree) -> Result<bool, Fail> {
    let grammar = built_in(alloc)?;
    let lexicon = words(alloc, &grammar)?;
    let Cut::Tokens(tokens) = cut(alloc, grammar.grammar(), text)? else {
        return Err(Fail::new("at most 40 tokens"));
    };
    assert_eq!(rt;
        show(alloc, grammar.grammar(), &tokens)?.as_bytes(),
        text.as_bytes()
    );
    assert!(rt; tokens.len() <= 40);
    Ok(check_tree(alloc, &grammar, &lexicon, &tokens, tree)?)
}

// Whether the rows derive the text, where the row at the place is another one.
fn says(
    rt: &impl Abort,
    alloc: Global,
    text: &str,
    rows: &[Row],
    change: (usize, Row),
) -> Result<bool, Fail> {
    let tree = tree_of(alloc, rows, change.0, change.1)?;
    derives(rt, alloc, text, &tree)
}

#[test]
fn each_kind_of_element_is_derived(rt: HostRuntime) -> Result<(), Fail> {
    let none = (NO_PLACE, MARY_SEES_A_CAT[0]);
    for (text, rows) in [
        ("Mary sees a cat.", MARY_SEES_A_CAT.as_slice()),
        ("If X sees Y then Y sees X.", IF_X_SEES_Y.as_slice()),
        ("Every cat sees the cat.", EVERY_CAT_SEES_THE_CAT.as_slice()),
    ] {
        assert!(rt; says(&rt, rt.alloc(), text, rows, none)?, "{text}");
    }
    Ok(())
}

#[test]
fn a_tree_that_breaks_a_rule_derives_nothing(rt: HostRuntime) -> Result<(), Fail> {
    let rows = MARY_SEES_A_CAT.as_slice();
    for (place, rule, children) in [
        (11, 0, 1),
        (11, 2, 1),
        (11, 82, 1),
        (7, 13, 0),
        (10, 4, 1),
        (2, 34, 0),
    ] {
        let other = Row {
            rule,
            children,
            ..rows[place]
        };
        assert!(rt;
            !says(&rt, rt.alloc(), "Mary sees a cat.", rows, (place, other))?,
            "rule {rule} at row {place}"
        );
    }
    Ok(())
}

#[test]
fn a_child_too_many_derives_nothing(rt: HostRuntime) -> Result<(), Fail> {
    let alloc = rt.alloc();
    let rows = MARY_SEES_A_CAT.as_slice();
    let mut tree = tree_of(alloc, rows, NO_PLACE, rows[0])?;
    tree.children
        .push(tree_of(alloc, &rows[..1], NO_PLACE, rows[0])?)?;
    assert!(rt; !derives(&rt, alloc, "Mary sees a cat.", &tree)?);
    Ok(())
}

#[test]
fn values_are_those_of_one_instance(rt: HostRuntime) -> Result<(), Fail> {
    let rows = MARY_SEES_A_CAT.as_slice();
    let values: [(usize, &'static [(u8, Value)]); 6] = [
        (0, &[(0, Value::Pos(1)), (1, Value::Word(WordId(2)))]),
        (0, &[(0, Value::Pos(0)), (1, Value::Word(WordId(1)))]),
        (0, &[(0, Value::Pos(1))]),
        (4, &[(0, Value::Pos(4)), (1, Value::Atom(2))]),
        (4, &[(0, Value::Pos(4)), (1, Value::Pos(3))]),
        (7, &[(0, Value::Atom(1)), (1, Value::Pos(1))]),
    ];
    for (place, values) in values {
        let other = Row {
            values,
            ..rows[place]
        };
        assert!(rt;
            !says(&rt, rt.alloc(), "Mary sees a cat.", rows, (place, other))?,
            "row {place}"
        );
    }
    Ok(())
}

#[test]
fn a_reference_finds_the_referent_of_its_position(rt: HostRuntime) -> Result<(), Fail> {
    let rows = IF_X_SEES_Y.as_slice();
    let founds: [&'static [u16]; 4] = [&[2], &[], &[4, 4], &[3]];
    for found in founds {
        let other = Row { found, ..rows[9] };
        assert!(rt;
            !says(
                &rt,
                rt.alloc(),
                "If X sees Y then Y sees X.",
                rows,
                (9, other)
            )?
        );
    }
    // The marked variable would have to take the position of another referent.
    let other = Row {
        values: &[(0, Value::Pos(2))],
        ..rows[9]
    };
    assert!(rt;
        !says(
            &rt,
            rt.alloc(),
            "If X sees Y then Y sees X.",
            rows,
            (9, other)
        )?
    );
    // A plain variable is a test: no referent is of another word.
    let rows = EVERY_CAT_SEES_THE_CAT.as_slice();
    let other = Row {
        values: &[(0, Value::Pos(2)), (1, Value::Word(WordId(0)))],
        ..rows[3]
    };
    assert!(rt; !says(&rt, rt.alloc(), "Every cat sees the cat.", rows, (3, other))?);
    Ok(())
}

#[test]
fn a_reference_takes_its_values_from_the_referent_found(rt: HostRuntime) -> Result<(), Fail> {
    let alloc = rt.alloc();
    let grammar = read_grammar(alloc, SMALL_GRAMMAR).ok().ok_or("a grammar")?;
    let lexicon = Lexicon::new(alloc, grammar.grammar())?;
    let Cut::Tokens(tokens) = cut(alloc, grammar.grammar(), "m n r e")? else {
        return Err(Fail::new("four tokens"));
    };
    assert!(rt; tokens.len() <= 40);
    for (reference, answer) in REFERENCES {
        let tree = tree_of(alloc, M_N_R_E.as_slice(), 2, reference)?;
        assert_eq!(rt;
            check_tree(alloc, &grammar, &lexicon, &tokens, &tree)?,
            answer
        );
    }
    Ok(())
}

#[test]
fn other_tokens_are_not_derived(rt: HostRuntime) -> Result<(), Fail> {
    let none = (NO_PLACE, MARY_SEES_A_CAT[0]);
    let rows = MARY_SEES_A_CAT.as_slice();
    for text in ["Mary sees a", "Mary sees a cat?", "Mary sees the cat.", ""] {
        assert!(rt; !says(&rt, rt.alloc(), text, rows, none)?, "{text}");
    }
    Ok(())
}
