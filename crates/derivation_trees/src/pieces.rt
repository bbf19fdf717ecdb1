// The pieces of a text between its spaces.
ghost use Rattle.std.specs.Prelude.{◌≡◌, ◌++◌, ◌∷◌, [], true, filter, MatchOption, IfOk, OnOk, length};
ghost use Rattle.wiki_base.specs.Token.{has_no_space};
ghost use Rattle.derivation_trees.specs.Cutting.{is_kept, pieces, is_mark, ends_with_mark, parted, parted_last};

use std::alloc::Global;
use wiki_base::{Memory, Token, Tokens};

// The pieces between the spaces, without the empty ones.
pub(crate) fn pieces(alloc: Global, text: &str) -> Result<Tokens, Memory>
    ensures { IfOk result (λ tokens. tokens ≡ pieces text.now) }
{
    let mut tokens = Tokens::new(alloc);
    let mut rest = text;
    while let Some((piece, after)) = split_at_space(rest) {
        push_piece(alloc, piece, &mut tokens)?;
        rest = after;
    }
    push_piece(alloc, rest, &mut tokens)?;
    Ok(tokens)
}

// What stands before the first space and what after it, where there is one.
fn split_at_space(text: &str) -> Option<(&str, &str)>
    ensures { MatchOption result (has_no_space text.now ≡ true) (λ parts. (has_no_space parts.0.now ≡ true) × (text.now ≡ parts.0.now ++ 32 ∷ parts.1.now)) }
{
    text.split_once(' ')
}

// Adds a piece that isn't empty.
fn push_piece(alloc: Global, piece: &str, tokens: &mut Tokens) -> Result<(), Memory>
    requires { has_no_space piece.now ≡ true }
    ensures { OnOk result (tokens.new ≡ tokens.old ++ filter is_kept (piece.now ∷ [])) }
{
    if !piece.is_empty() {
        tokens.push(Token::from_str(alloc, piece)?)?;
    }
    Ok(())
}

// The pieces, where a mark at the end of the last one is a token of its own.
#[tactic(auto, using(crate::proofs::PieceLemmas::parted_push))]
pub(crate) fn part_last(alloc: Global, pieces: Tokens) -> Result<Tokens, Memory>
    ensures { IfOk result (λ tokens. tokens ≡ parted_last pieces) }
{
    let mut items = pieces.into_vec();
    if let Some(last) = items.pop() {
        push_parted(alloc, last, &mut items)?;
    }
    Ok(Tokens::from_vec(items))
}

// Adds a last piece, with a mark at its end as a token of its own.
fn push_parted(alloc: Global, last: Token, tokens: &mut Vec<Token>) -> Result<(), Memory>
    ensures { OnOk result (tokens.new.items ≡ tokens.old.items ++ parted last) }
{
    if ends_with_mark(last.as_str().as_bytes()) {
        let text = last.as_str();
        let (front, mark) = text.split_at(text.len() - 1);
        tokens.push(Token::from_str(alloc, front)?)?;
        tokens.push(Token::from_str(alloc, mark)?)?;
    } else {
        tokens.push(last)?;
    }
    Ok(())
}

// Whether there is more than one byte, and the last of them is a mark.
fn ends_with_mark(piece: &[u8]) -> bool
    ensures { result ≡ ends_with_mark piece.now }
{
    piece.len() > 1 && is_mark(piece[piece.len() - 1])
}

// Whether the byte ends a sentence.
pub(crate) fn is_mark(byte: u8) -> bool
    ensures { result ≡ is_mark byte }
{
    byte == b'.' || byte == b'?'
}
