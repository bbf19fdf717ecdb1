// How tokens are shown as a text.
ghost use Rattle.std.specs.Prelude.{◌≡◌, ◌++◌, ◌∷◌, [], ◌&&◌, ◌<◌, ◌≤◌, if◌then◌else◌, IfOk, OnOk, length, slice_index};
ghost use Rattle.codeco_checked.specs.Sound.{IsSound};
ghost use Rattle.std.specs.Bool.{MatchBool};
ghost use Rattle.std.specs.Str.{IsUtf8};
ghost use Rattle.std.specs.String.{string_bytes};
ghost use Rattle.lexicon.specs.Terminals.{raised};
ghost use Rattle.derivation_trees.specs.Cutting.{cut_of, shown, shown_first, continued, gap, is_mark_token, IsShowable, AreWords};

use crate::cutting::is_terminal;
use crate::pieces::is_mark;
use codeco_terms::{Grammar, Symbols};
use std::alloc::Global;
use wiki_base::{Memory, Text8, Token, Tokens};

/// The text of a list of tokens: they stand joined by single spaces, with no space before a last token `.` or `?`, and
/// a first token that is a terminal has its first letter (a to z) raised to upper case.
pub fn show(alloc: Global, grammar: &Grammar, tokens: &Tokens) -> Result<Text8, Memory>
    ensures exact { IfOk result (λ text. text ≡ shown grammar.now.terminals tokens.now) }
    ensures utf8 { IfOk result IsUtf8 }
    ensures again { IfOk result (λ text.
        IsShowable grammar.now.terminals tokens.now → cut_of grammar.now.terminals text ≡ tokens.now) }
    ensures words { IfOk result (λ text.
        IsSound grammar.now → AreWords grammar.now.terminals tokens.now → cut_of grammar.now.terminals text ≡ tokens.now) }
{
    let mut text = String::new(alloc);
    push_tokens(grammar.terminals(), tokens.as_slice(), &mut text)?;
    Ok(Text8::from_string(text))
}

// Adds what shows the tokens.
fn push_tokens(terminals: &Symbols, tokens: &[Token], text: &mut String) -> Result<(), Memory>
    ensures { OnOk result (string_bytes text.new ≡ string_bytes text.old ++ shown terminals.now tokens.now) }
{
    if let [first, rest @ ..] = tokens {
        push_first(terminals, first.as_str(), text)?;
        push_rest(rest, text)?;
    }
    Ok(())
}

// Adds the first token, raised where it is a terminal.
fn push_first(terminals: &Symbols, token: &str, text: &mut String) -> Result<(), Memory>
    ensures { OnOk result (string_bytes text.new ≡ string_bytes text.old ++ shown_first terminals.now token.now) }
{
    if is_terminal(terminals, token.as_bytes()) {
        push_raised(token, text)
    } else {
        text.push_str(token)?;
        Ok(())
    }
}

// Adds the token with its first letter in upper case.
fn push_raised(token: &str, text: &mut String) -> Result<(), Memory>
    ensures { OnOk result (string_bytes text.new ≡ string_bytes text.old ++ raised token.now) }
{
    if starts_with_lower(token.as_bytes()) {
        let letter = token.as_bytes()[0];
        let (_, rest) = token.split_at(1);
        text.push(char::from(letter.to_ascii_uppercase()))?;
        text.push_str(rest)?;
    } else {
        text.push_str(token)?;
    }
    Ok(())
}

// Whether the first byte is a letter from a to z.
fn starts_with_lower(token: &[u8]) -> bool
    ensures { MatchBool result ((0 < length token.now) × (97 ≤ slice_index token.now 0) × (slice_index token.now 0 ≤ 122)) (raised token.now ≡ token.now) }
{
    match token {
        [] => false,
        [letter, ..] => letter.is_ascii_lowercase(),
    }
}

// Adds the tokens after the first, each behind its gap.
fn push_rest(tokens: &[Token], text: &mut String) -> Result<(), Memory>
    ensures { OnOk result (string_bytes text.new ≡ string_bytes text.old ++ continued tokens.now) }
{
    for (place, token) in tokens.iter().enumerate() {
        push_gap(token.as_str(), place + 1 == tokens.len(), text)?;
        text.push_str(token.as_str())?;
    }
    Ok(())
}

// Adds what stands before a token that isn't the first: a space, but nothing before a last mark.
fn push_gap(token: &str, is_last: bool, text: &mut String) -> Result<(), Memory>
    ensures { OnOk result
        (string_bytes text.new ≡ string_bytes text.old ++ (if is_last && is_mark_token token.now then [] else 32 ∷ [])) }
{
    if !(is_last && is_mark_token(token.as_bytes())) {
        text.push_str(" ")?;
    }
    Ok(())
}

fn is_mark_token(token: &[u8]) -> bool
    ensures { result ≡ is_mark_token token.now }
{
    match token {
        [byte] => is_mark(*byte),
        _ => false,
    }
}
