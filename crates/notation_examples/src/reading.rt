// Grammars with what is printed for them, and the longest text; texts with their faults stand in tests/data/notation.txt.
use crate::texts::GRAMMARS;
use codeco_reader::{GrammarFault, print_grammar, read_grammar};
use std::alloc::Global;
use std::test::Fail;
use wiki_base::Copied;

fn refusal(alloc: Global, text: &str) -> Option<GrammarFault> {
    read_grammar(alloc, text).err()
}

// The text with so many spaces behind it.
fn padded(alloc: Global, text: &str, spaces: usize) -> Result<String, Fail> {
    let mut padded = String::from_str(alloc, text)?;
    for _ in 0..spaces {
        padded.push(' ')?;
    }
    Ok(padded)
}

#[test]
fn a_grammar_without_faults_is_read_and_printed(rt: HostRuntime) -> Result<(), Fail> {
    for (text, printed) in GRAMMARS {
        match read_grammar(rt.alloc(), text) {
            Ok(grammar) => assert!(rt;
                print_grammar(rt.alloc(), &grammar)?.as_bytes() == printed.as_bytes(),
                "{text}"
            ),
            Err(fault) => assert!(rt; false, "{text} {fault:?}"),
        }
    }
    Ok(())
}

#[test]
fn a_grammar_is_labelled_where_each_rule_has_a_label(rt: HostRuntime) -> Result<(), Fail> {
    for (text, labelled) in [
        ("{statement} text --> s. {say} s --> [b] n v.", true),
        ("text --> [b].", false),
    ] {
        let grammar = read_grammar(rt.alloc(), text).ok().ok_or("a grammar")?;
        assert!(rt; grammar.is_labelled() == labelled, "{text}");
        assert!(rt; grammar.copy()?.is_labelled() == labelled, "{text}");
    }
    Ok(())
}

#[test]
fn a_text_of_1048576_bytes_is_the_longest(rt: HostRuntime) -> Result<(), Fail> {
    let longest = padded(rt.alloc(), "text --> [a].", 1_048_563)?;
    assert!(rt; refusal(rt.alloc(), &longest) == None);
    let longer = padded(rt.alloc(), "text --> [a].", 1_048_564)?;
    assert!(rt; refusal(rt.alloc(), &longer) == Some(GrammarFault::TooLarge(0)));
    let no_sentence = padded(rt.alloc(), "text -->", 1_048_569)?;
    assert!(rt; refusal(rt.alloc(), &no_sentence) == Some(GrammarFault::TooLarge(0)));
    Ok(())
}
