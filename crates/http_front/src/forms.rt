// Forms, and the coding of texts in paths.
ghost use Rattle.std.specs.Prelude.{◌≡◌, ◌++◌, ◌∷◌, [], true, filter, MatchOption, IfOk, OnOk};
ghost use Rattle.wiki_base.specs.Token.{has_no_space};
ghost use Rattle.std.specs.String.{string_bytes};
ghost use Rattle.form_urlencoded.specs.Form.{byte_serialize, is_nonempty};
ghost use Rattle.http_front.specs.Forms.{decoded, field, number_field, pieces, article_path, session_path};

use crate::numbers::short_number;
use form_urlencoded::{byte_serialize, decode, raw_pairs};
use std::alloc::Global;
use wiki_base::{Memory, Text8, Text8s};

/// The text that a coded segment, name or value stands for.
#[tactic(auto, unfolding(crate::specs::Forms::decoded))]
pub fn decoded(alloc: Global, bytes: &[u8]) -> Result<Text8, Memory>
    ensures { IfOk result (λ text. text ≡ decoded bytes.now) }
{
    Ok(Text8::from_string(decode(alloc, bytes)?.into_owned(alloc)?))
}

/// The value of the first field of this name in a form.
#[tactic(auto, using(crate::proofs::FormLemmas::value_start, crate::proofs::FormLemmas::value_end, crate::proofs::FormLemmas::value_hit, crate::proofs::FormLemmas::value_miss))]
pub fn field(alloc: Global, body: &[u8], name: &str) -> Result<Option<Text8>, Memory>
    ensures { IfOk result (λ value. value ≡ field name.now body.now) }
{
    for (key, value) in raw_pairs(body) {
        if decoded(alloc, key)?.as_str() == name {
            return Ok(Some(decoded(alloc, value)?));
        }
    }
    Ok(None)
}

/// The number that the first field of this name tells.
#[tactic(auto, unfolding(crate::specs::Forms::number_field))]
pub fn number_field(alloc: Global, body: &[u8], name: &str) -> Result<Option<u32>, Memory>
    ensures { IfOk result (λ number. number ≡ number_field name.now body.now) }
{
    match field(alloc, body, name)? {
        Some(value) => Ok(short_number(value.as_bytes())),
        None => Ok(None),
    }
}

/// The pieces of a text between its spaces, without the empty ones.
pub fn pieces(alloc: Global, text: &str) -> Result<Text8s, Memory>
    ensures { IfOk result (λ found. found ≡ pieces text.now) }
{
    let mut found = Text8s::new(alloc);
    let mut rest = text;
    while let Some((piece, after)) = split_at_space(rest) {
        push_piece(alloc, piece, &mut found)?;
        rest = after;
    }
    push_piece(alloc, rest, &mut found)?;
    Ok(found)
}

// What stands before the first space and what after it, where there is one.
fn split_at_space(text: &str) -> Option<(&str, &str)>
    ensures { MatchOption result (has_no_space text.now ≡ true) (λ parts. (has_no_space parts.0.now ≡ true) × (text.now ≡ parts.0.now ++ 32 ∷ parts.1.now)) }
{
    text.split_once(' ')
}

// Adds a piece that isn't empty.
fn push_piece(alloc: Global, piece: &str, found: &mut Text8s) -> Result<(), Memory>
    ensures { OnOk result (found.new ≡ found.old ++ filter is_nonempty (piece.now ∷ [])) }
{
    if !piece.is_empty() {
        found.push(Text8::from_str(alloc, piece)?)?;
    }
    Ok(())
}

// The text as a segment of a path.
fn coded(alloc: Global, text: &str) -> Result<String, Memory>
    ensures { IfOk result (λ coded. string_bytes coded ≡ byte_serialize text.now) }
{
    let mut coded = String::new(alloc);
    for piece in byte_serialize(text.as_bytes()) {
        coded.push_str(piece)?;
    }
    Ok(coded)
}

/// The path of a word's article.
#[tactic(auto, unfolding(crate::specs::Forms::article_path))]
pub fn article_path(alloc: Global, word: &str) -> Result<Text8, Memory>
    ensures { IfOk result (λ path. path ≡ article_path word.now) }
{
    let word = coded(alloc, word)?;
    Ok(Text8::from_string(format!(in alloc; "/article/{word}")?))
}

/// The path of a session.
#[tactic(auto, unfolding(crate::specs::Forms::session_path))]
pub fn session_path(alloc: Global, session: u32) -> Result<Text8, Memory>
    ensures { IfOk result (λ path. path ≡ session_path session) }
{
    Ok(Text8::from_string(format!(in alloc; "/session/{session}")?))
}
