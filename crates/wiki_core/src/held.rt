// What a program can hold of a request.
ghost use Rattle.std.specs.Prelude.{◌≡◌, ◌≤◌, true, All, IsUtf8};
ghost use Rattle.lexicon.specs.declared.words.TheConstants.{LAST_NUMBER};
ghost use Rattle.wiki_core.specs.Journaled.{IsHeld};

use lexicon::LAST_NUMBER;
use wiki_base::{Text8, Text8s};
use wiki_talk::{ArticleRequest, Request, WikiRequest, WordRequest};

// Whether the forms or the text that a request gives are in UTF-8, and its place has 32 bits, as always.
pub fn is_held(request: &Request) -> bool
    ensures yes { result ≡ true }
    ensures held { IsHeld request.now }
{
    match request {
        Request::OnWiki(WikiRequest::Word { forms, .. }) => are_utf8(forms),
        Request::OnWord {
            asked: WordRequest::Reword { forms },
            ..
        } => are_utf8(forms),
        Request::OnWiki(WikiRequest::Grammar { text }) => is_utf8(text),
        Request::OnArticle {
            asked: ArticleRequest::Add { at, .. },
            ..
        } => is_short(at.unwrap_or(0)),
        Request::OnArticle {
            asked: ArticleRequest::Edit { at, .. },
            ..
        } => is_short(*at),
        Request::OnArticle {
            asked: ArticleRequest::Remove { at },
            ..
        } => is_short(*at),
        Request::OnArticle {
            asked: ArticleRequest::Retract { at },
            ..
        } => is_short(*at),
        Request::OnArticle {
            asked: ArticleRequest::Reassert { at },
            ..
        } => is_short(*at),
        _ => true,
    }
}

fn is_short(place: u32) -> bool
    ensures yes { result ≡ true }
    ensures short { place ≤ LAST_NUMBER }
{
    place <= LAST_NUMBER
}

// Whether the text is in UTF-8, as it always is.
fn is_utf8(text: &Text8) -> bool
    ensures yes { result ≡ true }
    ensures utf8 { IsUtf8 text.now }
{
    let _ = text.as_bytes();
    true
}

// Whether each of the texts is in UTF-8, as it always is.
fn are_utf8(texts: &Text8s) -> bool
    ensures yes { result ≡ true }
    ensures utf8 { All IsUtf8 texts.now }
{
    for place in 0..texts.len() {
        let _ = texts.get(place).as_bytes();
    }
    true
}
