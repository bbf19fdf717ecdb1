// Texts of letters and inner hyphens, texts of UTF-8, and tokens.
use std::alloc::Global;
use std::test::Fail;
use wiki_base::{BadText, Copied, Memory, Text, Text8, Token, Tokens};

// Why this is no text, if it is none.
fn fault(alloc: Global, text: &str) -> Option<BadText> {
    Text::read(alloc, text).err()
}

// Whether the text is read as it stands, and copied as it is read.
fn is_read(alloc: Global, text: &str) -> Result<bool, Fail> {
    let read = Text::read(alloc, text)?;
    Ok(read.as_str() == text && read.copy()?.as_str() == text)
}

#[test]
fn the_first_misplaced_character_is_told(rt: HostRuntime) {
    for (text, wanted) in &[
        ("", BadText::Empty),
        ("a-", BadText::Letter(1)),
        ("-a", BadText::Letter(0)),
        ("a--b", BadText::Letter(1)),
        ("New York", BadText::Letter(3)),
        ("Zürich1", BadText::Letter(7)),
        ("a1b2", BadText::Letter(1)),
    ] {
        assert!(rt; fault(rt.alloc(), text) == Some(*wanted), "{text}");
    }
}

#[test]
fn sixty_four_bytes_are_the_most(rt: HostRuntime) -> Result<(), Fail> {
    let longest = "aaaaaaaaaaaaaaaaaaaaaaaaaaaaaaaaaaaaaaaaaaaaaaaaaaaaaaaaaaaaaaaa";
    assert!(rt; longest.len() == 64);
    assert!(rt; is_read(rt.alloc(), longest)?);
    let mut longer = String::from_str(rt.alloc(), longest)?;
    longer.push('1')?;
    assert!(rt; fault(rt.alloc(), longer.as_str()) == Some(BadText::TooLong));
    Ok(())
}

#[test]
fn letters_of_any_script_and_inner_hyphens_are_read(rt: HostRuntime) -> Result<(), Fail> {
    for text in &["Bern", "located-in", "Zürich", "東京", "a-b-c"] {
        assert!(rt; is_read(rt.alloc(), text)?, "{text}");
    }
    Ok(())
}

fn zurich(alloc: Global) -> Result<Text8, Memory> {
    let mut text = Text8::new(alloc);
    text.push_str("Zü")?;
    text.push_str("rich")?;
    Ok(text)
}

#[test]
fn texts_are_added_and_copied(rt: HostRuntime) -> Result<(), Fail> {
    let text = zurich(rt.alloc())?.copy()?;
    assert!(rt; text.as_str() == "Zürich");
    assert!(rt; text.as_bytes().len() == 7);
    let bytes = Text8::from_str(rt.alloc(), "x")?.into_vec();
    assert!(rt; bytes.as_slice() == b"x".as_slice());
    Ok(())
}

#[test]
fn bytes_that_are_no_utf8_are_no_text(rt: HostRuntime) -> Result<(), Fail> {
    let text = Text8::from_utf8(b"a".to_vec(rt.alloc())?);
    assert!(rt; text.is_some_and(|text| text.as_str() == "a"));
    assert!(rt; Text8::from_utf8([0xC3].to_vec(rt.alloc())?).is_none());
    Ok(())
}

fn two_tokens(alloc: Global) -> Result<Tokens, Memory> {
    let mut tokens = Tokens::new(alloc);
    for token in &["every", "man"] {
        tokens.push(Token::from_str(alloc, token)?)?;
    }
    Ok(tokens)
}

#[test]
fn tokens_are_kept_in_order(rt: HostRuntime) -> Result<(), Fail> {
    let copy = two_tokens(rt.alloc())?.copy()?;
    assert!(rt; copy.len() == 2 && !copy.is_empty());
    assert!(rt; copy.get(1).as_str() == "man");
    assert!(rt; Tokens::from_vec(copy.into_vec()).as_slice().len() == 2);
    Ok(())
}
