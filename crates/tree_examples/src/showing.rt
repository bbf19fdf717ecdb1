// How a text is cut into tokens, and tokens are shown as a text.
use codeco_terms::{Features, Grammar, Rules, Symbol, Symbols};
use derivation_trees::{Cut, cut, show};
use std::alloc::Global;
use std::test::Fail;
use wiki_base::Memory;

// A grammar with the terminals `every`, `a` and `.`.
fn small_grammar(alloc: Global) -> Result<Grammar, Memory> {
    let mut terminals = Symbols::new(alloc);
    terminals.push(Symbol::from_slice(alloc, b"every")?)?;
    terminals.push(Symbol::from_slice(alloc, b"a")?)?;
    terminals.push(Symbol::from_slice(alloc, b".")?)?;
    Ok(Grammar::new(
        Features::new(alloc),
        Symbols::new(alloc),
        terminals,
        Symbols::new(alloc),
        Rules::new(alloc),
    ))
}

// The tokens of a text, with a bar behind each.
fn barred(alloc: Global, text: &str) -> Result<String, Memory> {
    let grammar = small_grammar(alloc)?;
    let mut bars = String::new(alloc);
    match cut(alloc, &grammar, text)? {
        Cut::TooMany => bars.push_str("too many")?,
        Cut::Tokens(tokens) => {
            for token in tokens.as_slice() {
                bars.push_str(token.as_str())?;
                bars.push_str("|")?;
            }
        }
    }
    Ok(bars)
}

// Whether the text is what shows its tokens.
fn is_shown_again(alloc: Global, text: &str) -> Result<bool, Memory> {
    let grammar = small_grammar(alloc)?;
    match cut(alloc, &grammar, text)? {
        Cut::TooMany => Ok(false),
        Cut::Tokens(tokens) => { Ok(show(alloc, &grammar, &tokens)?.as_bytes() == text.as_bytes()) }
    }
}

#[test]
fn a_sentence_is_cut_and_shown_again(rt: HostRuntime) -> Result<(), Fail> {
    let sentence = barred(rt.alloc(), "Every man owns a dog.")?;
    assert_eq!(rt; sentence.as_str(), "every|man|owns|a|dog|.|");
    for text in ["Every man owns a dog.", "Mary Every", "A dog?"] {
        assert!(rt; is_shown_again(rt.alloc(), text)?, "{text}");
    }
    Ok(())
}

#[test]
fn spaces_part_and_a_last_mark_stands_alone(rt: HostRuntime) -> Result<(), Fail> {
    for (text, bars) in [
        ("", ""),
        ("two  dogs ", "two|dogs|"),
        (".", ".|"),
        ("dog?", "dog|?|"),
        ("a. dog..", "a.|dog.|.|"),
    ] {
        assert_eq!(rt; barred(rt.alloc(), text)?.as_str(), bars, "{text}");
    }
    Ok(())
}

#[test]
fn more_than_40_tokens_are_too_many(rt: HostRuntime) -> Result<(), Fail> {
    let mut text = String::new(rt.alloc());
    for _ in 0..40 {
        text.push_str("I ")?;
    }
    assert!(rt; barred(rt.alloc(), text.as_str())?.len() == 80);
    text.push_str("I")?;
    assert_eq!(rt; barred(rt.alloc(), text.as_str())?.as_str(), "too many");
    Ok(())
}
