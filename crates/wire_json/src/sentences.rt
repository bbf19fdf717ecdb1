// The requests that speak of articles and sentences.
ghost use Rattle.std.specs.Prelude.{◌≡◌, IfOk, option_map};
ghost use Rattle.serde_json.specs.View.{view};
ghost use Rattle.wire_json.specs.Requests.{number_of, number_at, number_if_at, place_in, add_in, edit_in, remove_in, retract_in, reassert_in, on_article_in, axioms_in};

use crate::read::text_of;
use serde_json::Value;
use std::alloc::Global;
use wiki_base::{Memory, Text8};
use wiki_talk::{ArticleRequest, Request};

#[tactic(auto, unfolding(crate::specs::Requests::add_in))]
pub(crate) fn add_from(alloc: Global, value: &Value) -> Result<Option<Request>, Memory>
    ensures { IfOk result (λ request. request ≡ add_in (view value.now)) }
{
    let Some(article) = text_of(value, "article") else {
        return Ok(None);
    };
    let Some(at) = number_if_at(value, "at") else {
        return Ok(None);
    };
    match text_of(value, "text") {
        Some(text) => Ok(Some(Request::OnArticle {
            article: Text8::from_str(alloc, article)?,
            asked: ArticleRequest::Add {
                at,
                text: Text8::from_str(alloc, text)?,
            },
        })),
        None => Ok(None),
    }
}

#[tactic(auto, unfolding(crate::specs::Requests::edit_in))]
pub(crate) fn edit_from(alloc: Global, value: &Value) -> Result<Option<Request>, Memory>
    ensures { IfOk result (λ request. request ≡ edit_in (view value.now)) }
{
    let Some((article, at)) = place_from(alloc, value)? else {
        return Ok(None);
    };
    match text_of(value, "text") {
        Some(text) => Ok(Some(Request::OnArticle {
            article,
            asked: ArticleRequest::Edit {
                at,
                text: Text8::from_str(alloc, text)?,
            },
        })),
        None => Ok(None),
    }
}

pub(crate) fn remove_from(alloc: Global, value: &Value) -> Result<Option<Request>, Memory>
    ensures { IfOk result (λ request. request ≡ remove_in (view value.now)) }
{
    match place_from(alloc, value)? {
        Some((article, at)) => Ok(Some(Request::OnArticle {
            article,
            asked: ArticleRequest::Remove { at },
        })),
        None => Ok(None),
    }
}

pub(crate) fn retract_from(alloc: Global, value: &Value) -> Result<Option<Request>, Memory>
    ensures { IfOk result (λ request. request ≡ retract_in (view value.now)) }
{
    match place_from(alloc, value)? {
        Some((article, at)) => Ok(Some(Request::OnArticle {
            article,
            asked: ArticleRequest::Retract { at },
        })),
        None => Ok(None),
    }
}

pub(crate) fn reassert_from(alloc: Global, value: &Value) -> Result<Option<Request>, Memory>
    ensures { IfOk result (λ request. request ≡ reassert_in (view value.now)) }
{
    match place_from(alloc, value)? {
        Some((article, at)) => Ok(Some(Request::OnArticle {
            article,
            asked: ArticleRequest::Reassert { at },
        })),
        None => Ok(None),
    }
}

pub(crate) fn axioms_from(alloc: Global, value: &Value) -> Result<Option<Request>, Memory>
    ensures { IfOk result (λ request. request ≡ axioms_in (view value.now)) }
{
    match place_from(alloc, value)? {
        Some((article, at)) => Ok(Some(Request::OnArticle {
            article,
            asked: ArticleRequest::Axioms { at },
        })),
        None => Ok(None),
    }
}

// What is asked of an article.
#[tactic(auto, unfolding(crate::specs::Requests::on_article_in))]
pub(crate) fn on_article_from(
    alloc: Global,
    value: &Value,
    asked: ArticleRequest,
) -> Result<Option<Request>, Memory>
    ensures { IfOk result (λ request. request ≡ on_article_in asked (view value.now)) }
{
    match text_of(value, "article") {
        Some(article) => Ok(Some(Request::OnArticle {
            article: Text8::from_str(alloc, article)?,
            asked,
        })),
        None => Ok(None),
    }
}

// An article and a place in it, if both are there.
#[tactic(auto, unfolding(crate::specs::Requests::place_in))]
fn place_from(alloc: Global, value: &Value) -> Result<Option<(Text8, u32)>, Memory>
    ensures { IfOk result (λ place. place ≡ place_in (view value.now)) }
{
    let Some(article) = text_of(value, "article") else {
        return Ok(None);
    };
    match number_at(value, "at") {
        Some(at) => Ok(Some((Text8::from_str(alloc, article)?, at))),
        None => Ok(None),
    }
}

// The number at a key, if there is one.
pub(crate) fn number_at(value: &Value, key: &str) -> Option<u32>
    ensures { result ≡ number_at key.now (view value.now) }
{
    match value.get(key) {
        Some(found) => number_of(found),
        None => None,
    }
}

// The number at a key, which may be missing. `None` where there is something else at the key.
fn number_if_at(value: &Value, key: &str) -> Option<Option<u32>>
    ensures { result ≡ number_if_at key.now (view value.now) }
{
    match value.get(key) {
        Some(found) => number_of(found).map(Some),
        None => Some(None),
    }
}

// The number that a value is.
fn number_of(value: &Value) -> Option<u32>
    ensures { result ≡ number_of (view value.now) }
{
    match value.as_u64() {
        Some(number) if number <= u64::from(u32::MAX) => Some(number as u32),
        _ => None,
    }
}
