// The codes of least skeletons, menus, and how many tokens are typeable.
ghost use Rattle.std.specs.Prelude.{◌≤◌, length, IfOk};

use ace_grammar::built_in;
use codeco_checked::CheckedGrammar;
use codeco_reader::read_grammar;
use derivations::{
    Cut, Group, Menu, Skeleton, Skeletons, Words, cut, plain_least, plain_menu, typeable_count,
};
use lexicon::{Kind, Lexicon, forms};
use std::alloc::Global;
use std::test::Fail;
use wiki_base::{Copied, Text, Tokens, WordId};

fn words(
    alloc: Global,
    grammar: &CheckedGrammar,
    given: &[(Kind, &[&str])],
) -> Result<Lexicon, Fail> {
    let mut lexicon = Lexicon::new(alloc, grammar.grammar())?;
    for (kind, texts) in given {
        let mut read = Vec::new(alloc);
        for text in *texts {
            read.push(Text::read(alloc, text)?)?;
        }
        let forms = forms(alloc, *kind, read.as_slice())?;
        if lexicon.add(&forms).is_err() {
            return Err(Fail::new("a word that is free"));
        }
    }
    Ok(lexicon)
}

fn tokens_of(alloc: Global, grammar: &CheckedGrammar, text: &str) -> Result<Tokens, Fail>
    ensures { IfOk result (λ tokens. length tokens ≤ 40) }
{
    let Cut::Tokens(tokens) = cut(alloc, grammar.grammar(), text)? else {
        return Err(Fail::new("at most 40 tokens"));
    };
    Ok(tokens)
}

fn least(
    alloc: Global,
    grammar: &CheckedGrammar,
    given: &[(Kind, &[&str])],
    text: &str,
) -> Result<Option<Skeleton>, Fail> {
    let lexicon = words(alloc, grammar, given)?;
    let tokens = tokens_of(alloc, grammar, text)?;
    Ok(plain_least(alloc, grammar, &lexicon, &tokens)?)
}

const PEOPLE: [(Kind, &[&str]); 6] = [
    (Kind::Name, &["Mary"]),
    (Kind::Name, &["Bill"]),
    (Kind::Noun, &["cat"]),
    (Kind::Noun, &["dog"]),
    (Kind::Verb, &["sees", "see", "seen"]),
    (Kind::Verb, &["owns", "own", "owned"]),
];

const COUNTRIES: [(Kind, &[&str]); 4] = [
    (Kind::Name, &["Germany"]),
    (Kind::Noun, &["country"]),
    (Kind::Verb, &["border"]),
    (Kind::Name, &["Switzerland"]),
];

const SHEEP: [(Kind, &[&str]); 3] = [
    (Kind::Noun, &["sheep", "sheep"]),
    (Kind::Name, &["Mary"]),
    (Kind::Verb, &["sees", "see", "seen"]),
];

fn has_code(
    rt: &impl std::process::Abort,
    alloc: Global,
    given: &[(Kind, &[&str])],
    text: &str,
    code: &[u16],
) -> Result<(), Fail> {
    let grammar = built_in(alloc)?;
    match least(alloc, &grammar, given, text)? {
        None => Err(Fail::new("a sentence")),
        Some(skeleton) => {
            assert!(rt; skeleton.code(alloc)?.as_slice() == code, "{text}");
            Ok(())
        }
    }
}

#[test]
fn the_least_of_two_trees_is_given(rt: HostRuntime) -> Result<(), Fail> {
    let grammar = read_grammar(
        rt.alloc(),
        "feature k: p, q. feature id: position. text --> m n r [e]. m --> [m] #P > x(k: p, id: P). \
         n --> [n] #P > x(k: q, id: P). r --> < +x(k: K, id: ?I) [r].",
    )?;
    match least(rt.alloc(), &grammar, &[], "m n r e")? {
        None => Err(Fail::new("a sentence")),
        Some(skeleton) => {
            assert!(rt; skeleton.code(rt.alloc())?.as_slice() == [1, 2, 3, 4, 1].as_slice());
            Ok(())
        }
    }
}

#[test]
fn sentences_have_their_codes(rt: HostRuntime) -> Result<(), Fail> {
    let alloc = rt.alloc();
    has_code(
        &rt,
        alloc,
        &PEOPLE,
        "Mary sees a cat and sees it.",
        &[
            1, 3, 7, 48, 56, 8, 14, 15, 52, 65, 33, 74, 13, 15, 53, 54, 4,
        ],
    )?;
    has_code(
        &rt,
        alloc,
        &PEOPLE,
        "If Mary sees no dog that Bill owns then it sees Mary.",
        &[
            1, 4, 5, 7, 48, 56, 8, 13, 15, 52, 67, 75, 38, 45, 46, 48, 56, 5, 7, 50, 7, 8, 13, 15,
            51, 56,
        ],
    )?;
    has_code(
        &rt,
        alloc,
        &COUNTRIES,
        "Which countries border Germany?",
        &[2, 79, 80, 8, 13, 16, 51, 56],
    )?;
    has_code(
        &rt,
        alloc,
        &SHEEP,
        "Which sheep does Mary see?",
        &[2, 81, 80, 48, 56],
    )?;
    has_code(
        &rt,
        alloc,
        &[(Kind::Noun, &["unicorn"])],
        "Nothing is something.",
        &[1, 3, 7, 49, 72, 8, 13, 20, 24, 29],
    )?;
    Ok(())
}

// The tokens that may follow the text, with their groups.
fn has_menu(
    rt: &impl std::process::Abort,
    alloc: Global,
    grammar: &CheckedGrammar,
    given: &[(Kind, &[&str])],
    text: &str,
    expected: &[(Group, &str)],
) -> Result<(), Fail> {
    let lexicon = words(alloc, grammar, given)?;
    let tokens = tokens_of(alloc, grammar, text)?;
    let menu = plain_menu(alloc, grammar, &lexicon, &tokens)?;
    assert!(rt; menu.len() == expected.len(), "{text}");
    for (place, (group, token)) in expected.iter().enumerate() {
        assert!(rt; place < menu.len(), "{text}");
        let (found, shown) = menu.get(place);
        assert!(rt; found == *group && shown == *token, "{text} {shown}");
    }
    Ok(())
}

fn has_typeable(
    rt: &impl std::process::Abort,
    alloc: Global,
    grammar: &CheckedGrammar,
    given: &[(Kind, &[&str])],
    text: &str,
    count: usize,
) -> Result<(), Fail> {
    let lexicon = words(alloc, grammar, given)?;
    let tokens = tokens_of(alloc, grammar, text)?;
    assert!(rt;
        typeable_count(alloc, grammar, &lexicon, &tokens)? == count,
        "{text}"
    );
    Ok(())
}

const PETS: [(Kind, &[&str]); 4] = [
    (Kind::Name, &["Mary"]),
    (Kind::Noun, &["cat", "cats"]),
    (Kind::Noun, &["dog", "dogs"]),
    (Kind::Verb, &["sees", "see", "seen"]),
];

#[test]
fn a_name_is_followed_by_a_verb(rt: HostRuntime) -> Result<(), Fail> {
    let grammar = built_in(rt.alloc())?;
    let given: [(Kind, &[&str]); 2] = [
        (Kind::Name, &["Mary"]),
        (Kind::Verb, &["sees", "see", "seen"]),
    ];
    let menu = [
        (Group::Function, "does"),
        (Group::Function, "is"),
        (Group::Verb, "sees"),
    ];
    has_menu(&rt, rt.alloc(), &grammar, &given, "Mary", &menu)?;
    has_menu(&rt, rt.alloc(), &grammar, &PETS, "Mary", &menu)?;
    has_typeable(&rt, rt.alloc(), &grammar, &given, "Mary fish", 1)
}

#[test]
fn a_form_that_two_numbers_share_is_listed_once(rt: HostRuntime) -> Result<(), Fail> {
    let grammar = built_in(rt.alloc())?;
    let menu = [(Group::Noun, "sheep")];
    has_menu(&rt, rt.alloc(), &grammar, &SHEEP, "Which", &menu)
}

#[test]
fn a_reference_is_offered_where_it_finds_a_referent(rt: HostRuntime) -> Result<(), Fail> {
    let grammar = built_in(rt.alloc())?;
    let without = [
        (Group::Function, "X"),
        (Group::Function, "Y"),
        (Group::Function, "Z"),
        (Group::Function, "a"),
        (Group::Function, "an"),
        (Group::Function, "every"),
        (Group::Function, "everything"),
        (Group::Function, "itself"),
        (Group::Function, "no"),
        (Group::Function, "nothing"),
        (Group::Function, "only"),
        (Group::Function, "something"),
        (Group::Name, "Mary"),
    ];
    has_menu(&rt, rt.alloc(), &grammar, &PETS, "Mary sees", &without)
}

#[test]
fn the_is_followed_by_a_noun_that_was_introduced(rt: HostRuntime) -> Result<(), Fail> {
    let grammar = built_in(rt.alloc())?;
    let menu = [(Group::Noun, "cat")];
    has_menu(
        &rt,
        rt.alloc(),
        &grammar,
        &PETS,
        "If Mary sees a cat then the",
        &menu,
    )
}

const TWICE: &str =
    "feature k: p, q. feature l: p, q. text --> a(k: K, l: K). a(k: X, l: Y) --> b(k: X) c(l: Y). \
     b(k: p) --> [t]. c(l: q) --> [u]. c(l: p) --> [v].";

#[test]
fn a_variable_that_stands_twice_has_one_value(rt: HostRuntime) -> Result<(), Fail> {
    let grammar = read_grammar(rt.alloc(), TWICE)?;
    has_menu(
        &rt,
        rt.alloc(),
        &grammar,
        &[],
        "t",
        &[(Group::Function, "v")],
    )?;
    has_typeable(&rt, rt.alloc(), &grammar, &[], "t v", 2)?;
    has_typeable(&rt, rt.alloc(), &grammar, &[], "t u", 1)
}

const LATER: &str = "feature w: word. text --> > x(w: W) < +x(w: V) -x(w: Z) [t] $noun(w: Z).";

#[test]
fn a_later_token_gives_a_test_its_value(rt: HostRuntime) -> Result<(), Fail> {
    let grammar = read_grammar(rt.alloc(), LATER)?;
    let ox: [(Kind, &[&str]); 1] = [(Kind::Noun, &["ox", "oxen"])];
    has_menu(&rt, rt.alloc(), &grammar, &ox, "", &[])?;
    let nouns = [(Group::Noun, "ox"), (Group::Noun, "oxen")];
    has_menu(&rt, rt.alloc(), &grammar, &ox, "t", &nouns)?;
    has_typeable(&rt, rt.alloc(), &grammar, &ox, "t ox", 0)?;
    assert!(rt; least(rt.alloc(), &grammar, &ox, "t ox")?.is_some());
    assert!(rt; least(rt.alloc(), &grammar, &ox, "t")?.is_none());
    Ok(())
}

const OWN: &str = "feature k: p, q. feature id: position. text --> m r. m --> [m] #P > x(id: P). \
     r --> < +x(k: q, id: ?I) [r].";

#[test]
fn a_feature_that_an_introduction_leaves_out_may_have_any_value(
    rt: HostRuntime,
) -> Result<(), Fail> {
    let grammar = read_grammar(rt.alloc(), OWN)?;
    has_menu(
        &rt,
        rt.alloc(),
        &grammar,
        &[],
        "m",
        &[(Group::Function, "r")],
    )?;
    match least(rt.alloc(), &grammar, &[], "m r")? {
        None => Err(Fail::new("a sentence")),
        Some(skeleton) => {
            assert!(rt; skeleton.code(rt.alloc())?.as_slice() == [1, 2, 3, 1].as_slice());
            Ok(())
        }
    }
}

const NONE_BEFORE: &str =
    "feature k: p. feature id: position. text --> /< +x(k: p) [a] #P > x(k: p, id: P) b. \
     b --> /< +x(k: p) [b]. b --> < +x(k: p, id: ?I) [c].";

#[test]
fn no_referent_agrees_where_none_is_introduced(rt: HostRuntime) -> Result<(), Fail> {
    let grammar = read_grammar(rt.alloc(), NONE_BEFORE)?;
    has_menu(
        &rt,
        rt.alloc(),
        &grammar,
        &[],
        "",
        &[(Group::Function, "a")],
    )?;
    has_menu(
        &rt,
        rt.alloc(),
        &grammar,
        &[],
        "a",
        &[(Group::Function, "c")],
    )?;
    has_typeable(&rt, rt.alloc(), &grammar, &[], "a b", 1)
}

const PLACES: &str =
    "feature id: position. text --> a(id: P) [u] b(id: P). a(id: P) --> [t] #P. b(id: P) --> #P [v]. \
     b(id: P) --> [w].";

#[test]
fn a_position_is_the_number_of_tokens_before_it(rt: HostRuntime) -> Result<(), Fail> {
    let grammar = read_grammar(rt.alloc(), PLACES)?;
    let menu = [(Group::Function, "w")];
    has_menu(&rt, rt.alloc(), &grammar, &[], "t u", &menu)?;
    has_typeable(&rt, rt.alloc(), &grammar, &[], "t u v", 2)?;
    assert!(rt; least(rt.alloc(), &grammar, &[], "t u v")?.is_none());
    match least(rt.alloc(), &grammar, &[], "t u w")? {
        None => Err(Fail::new("a sentence")),
        Some(skeleton) => {
            assert!(rt; skeleton.code(rt.alloc())?.as_slice() == [1, 2, 4].as_slice());
            Ok(())
        }
    }
}

#[test]
fn skeletons_and_menus_are_made_and_copied(rt: HostRuntime) -> Result<(), Fail> {
    let alloc = rt.alloc();
    let mut menu = Menu::new(alloc);
    assert!(rt; menu.is_empty());
    menu.push(Group::Noun, "cat")?;
    let copy = menu.copy()?;
    assert_eq!(rt; copy.len(), 1);
    assert!(rt; copy.get(0).1 == "cat");
    let mut words = Words::new(alloc);
    words.push(WordId(4))?;
    let mut found = lists::List::new(alloc);
    found.push(2)?;
    let skeleton = Skeleton {
        rule: 7,
        start: 0,
        end: 1,
        found,
        words,
        children: Skeletons::new(alloc),
    };
    let mut skeletons = Skeletons::new(alloc);
    skeletons.push(skeleton)?;
    let copies = skeletons.copy()?;
    assert_eq!(rt; copies.len(), 1);
    assert!(rt; copies.get(0).code(alloc)?.as_slice() == [7, 2].as_slice());
    Ok(())
}
