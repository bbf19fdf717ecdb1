// What a text is typed as, and whether it is a terminal or a form at all.
ghost use Rattle.std.specs.Prelude.{◌≡◌, ◌↔◌, true, IsTrue, IfOk, IfSome, IsSome, OnOk};
ghost use Rattle.std.specs.String.{string_bytes};
ghost use Rattle.wiki_base.specs.Token.{IsToken};
ghost use Rattle.derivation_trees.specs.Cutting as cutting;
ghost use Rattle.derivation_trees.specs.Menus.{IsOfGroup};
ghost use Rattle.derivation_trees.specs.declared.menus.Group.{Group};
ghost use Rattle.editor.specs.Editing.{typed};

use codeco_checked::CheckedGrammar;
use codeco_terms::Symbols;
use lexicon::Lexicon;
use std::alloc::Global;
use wiki_base::{Memory, Tokens};

// The token that the text is typed as, behind the tokens.
pub(crate) fn read(
    alloc: Global,
    grammar: &CheckedGrammar,
    tokens: &Tokens,
    text: &str,
) -> Result<String, Memory>
    ensures { IfOk result (λ read. string_bytes read ≡ typed grammar.now.terminals tokens.now text.now) }
{
    if tokens.is_empty() {
        read_first(alloc, grammar.grammar().terminals(), text)
    } else {
        Ok(String::from_str(alloc, text)?)
    }
}

// The terminal that the text is with its first letter raised, or else the text.
fn read_first(alloc: Global, terminals: &Symbols, text: &str) -> Result<String, Memory>
    ensures { IfOk result (λ read. string_bytes read ≡ cutting.read_first terminals.now text.now) }
{
    let lower = lowered(alloc, text)?;
    if is_terminal(terminals, lower.as_str().as_bytes()) {
        Ok(lower)
    } else {
        Ok(String::from_str(alloc, text)?)
    }
}

// The text with its first letter in lower case.
fn lowered(alloc: Global, text: &str) -> Result<String, Memory>
    ensures { IfOk result (λ lower. string_bytes lower ≡ cutting.lowered text.now) }
{
    let bytes = text.as_bytes();
    if bytes.is_empty() || !bytes[0].is_ascii_uppercase() {
        return Ok(String::from_str(alloc, text)?);
    }
    let (_, rest) = text.split_at(1);
    let mut lower = String::new(alloc);
    lower.push(char::from(bytes[0].to_ascii_lowercase()))?;
    lower.push_str(rest)?;
    Ok(lower)
}

// Whether the token is one of the terminals.
fn is_terminal(terminals: &Symbols, token: &[u8]) -> bool
    ensures { result ≡ cutting.is_terminal terminals.now token.now }
{
    terminals
        .as_slice()
        .iter()
        .any(|terminal| token == terminal.as_bytes())
}

// Whether the text is a terminal or a form of a live word.
pub(crate) fn is_known(grammar: &CheckedGrammar, lexicon: &Lexicon, text: &str) -> bool
    ensures known { IsTrue result ↔ ((group : Group) × IsOfGroup grammar.now lexicon.now group text.now) }
    ensures token { result ≡ true → IsToken text.now }
{
    if is_terminal(grammar.grammar().terminals(), text.as_bytes()) {
        return true;
    }
    lexicon.find(text).is_some()
}
