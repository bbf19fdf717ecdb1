// The request of a line.
ghost use Rattle.std.specs.Prelude.{◌≡◌, IfOk, option_map};
ghost use Rattle.serde_json.specs.View.{view, items_view};
ghost use Rattle.wire_json.specs.Requests.{text_at, texts_at, texts_in, word_in, on_word_in, parse_in, reword_in, grammar_in, request_named, request_in, request_of, change_named, line_request_in, line_request_of};

use crate::sentences::{
    add_from, axioms_from, edit_from, on_article_from, reassert_from, remove_from, retract_from,
};
use crate::sessions::{on_session_from, type_from};
use serde_json::Value;
use std::alloc::Global;
use wiki_base::{Memory, Text8, Text8s};
use wiki_io::MAX_LINE;
use wiki_talk::{
    ArticleRequest, LineRequest, Request, SessionRequest, WikiRequest, WordRequest, kind_named,
};

/// The request of a line without its newline. `None` exactly where the line is too long (`MAX_LINE`) or is no
/// request.
#[tactic(auto, unfolding(crate::specs::Requests::request_of))]
pub fn read_request(alloc: Global, line: &[u8]) -> Result<Option<Request>, Memory>
    ensures { IfOk result (λ request. request ≡ request_of line.now) }
{
    if line.len() >= MAX_LINE {
        return Ok(None);
    }
    match Value::from_slice(alloc, line) {
        Ok(value) => request_from(alloc, &value),
        Err(error) if error.is_memory() => Err(Memory),
        Err(_) => Ok(None),
    }
}

/// What a line of the input asks, without its newline: a request, or one of `undo` and `redo`. `None` exactly where the line
/// is too long (`MAX_LINE`) or is none of these.
#[tactic(auto, unfolding(crate::specs::Requests::line_request_of))]
pub fn read_line_request(alloc: Global, line: &[u8]) -> Result<Option<LineRequest>, Memory>
    ensures { IfOk result (λ request. request ≡ line_request_of line.now) }
{
    if MAX_LINE <= line.len() {
        return Ok(None);
    }
    match Value::from_slice(alloc, line) {
        Ok(value) => line_request_from(alloc, &value),
        Err(error) if error.is_memory() => Err(Memory),
        Err(_) => Ok(None),
    }
}

#[tactic(auto, unfolding(crate::specs::Requests::line_request_in))]
fn line_request_from(alloc: Global, value: &Value) -> Result<Option<LineRequest>, Memory>
    ensures { IfOk result (λ request. request ≡ line_request_in (view value.now)) }
{
    match request_from(alloc, value)? {
        Some(request) => Ok(Some(LineRequest::Step(request))),
        None => Ok(text_of(value, "do").and_then(change_named)),
    }
}

fn change_named(name: &str) -> Option<LineRequest>
    ensures { result ≡ change_named name.now }
{
    match name {
        "undo" => Some(LineRequest::Undo),
        "redo" => Some(LineRequest::Redo),
        _ => None,
    }
}

fn request_from(alloc: Global, value: &Value) -> Result<Option<Request>, Memory>
    ensures { IfOk result (λ request. request ≡ request_in (view value.now)) }
{
    match text_of(value, "do") {
        Some(name) => request_named(alloc, value, name),
        None => Ok(None),
    }
}

#[tactic(auto, unfolding(crate::specs::Requests::request_named))]
fn request_named(alloc: Global, value: &Value, name: &str) -> Result<Option<Request>, Memory>
    ensures { IfOk result (λ request. request ≡ request_named (view value.now) name.now) }
{
    match name {
        "word" => word_from(alloc, value),
        "find" => on_word_from(alloc, value, WordRequest::Find),
        "words" => Ok(Some(Request::OnWiki(WikiRequest::Words))),
        "parse" => parse_from(alloc, value),
        "reword" => reword_from(alloc, value),
        "unword" => on_word_from(alloc, value, WordRequest::Unword),
        "grammar" => grammar_from(alloc, value),
        "add" => add_from(alloc, value),
        "edit" => edit_from(alloc, value),
        "remove" => remove_from(alloc, value),
        "retract" => retract_from(alloc, value),
        "reassert" => reassert_from(alloc, value),
        "read" => on_article_from(alloc, value, ArticleRequest::Read),
        "axioms" => axioms_from(alloc, value),
        "open" => on_article_from(alloc, value, ArticleRequest::Open),
        "type" => type_from(alloc, value),
        "back" => Ok(on_session_from(value, SessionRequest::Back)),
        "menu" => Ok(on_session_from(value, SessionRequest::Menu)),
        "commit" => Ok(on_session_from(value, SessionRequest::Commit)),
        "refresh" => Ok(on_session_from(value, SessionRequest::Refresh)),
        "drop" => Ok(on_session_from(value, SessionRequest::Drop)),
        _ => Ok(None),
    }
}

#[tactic(auto, unfolding(crate::specs::Requests::word_in))]
fn word_from(alloc: Global, value: &Value) -> Result<Option<Request>, Memory>
    ensures { IfOk result (λ request. request ≡ word_in (view value.now)) }
{
    let Some(name) = text_of(value, "kind") else {
        return Ok(None);
    };
    let Some(kind) = kind_named(name) else {
        return Ok(None);
    };
    match texts_of(alloc, value, "forms")? {
        Some(forms) => Ok(Some(Request::OnWiki(WikiRequest::Word {
            kind,
            forms: Text8s::from_vec(forms),
        }))),
        None => Ok(None),
    }
}

// What is asked of a word.
#[tactic(auto, unfolding(crate::specs::Requests::on_word_in))]
fn on_word_from(alloc: Global, value: &Value, asked: WordRequest) -> Result<Option<Request>, Memory>
    ensures { IfOk result (λ request. request ≡ on_word_in asked (view value.now)) }
{
    match text_of(value, "word") {
        Some(word) => Ok(Some(Request::OnWord {
            word: Text8::from_str(alloc, word)?,
            asked,
        })),
        None => Ok(None),
    }
}

#[tactic(auto, unfolding(crate::specs::Requests::parse_in))]
fn parse_from(alloc: Global, value: &Value) -> Result<Option<Request>, Memory>
    ensures { IfOk result (λ request. request ≡ parse_in (view value.now)) }
{
    match text_of(value, "text") {
        Some(text) => Ok(Some(Request::OnWiki(WikiRequest::Parse {
            text: Text8::from_str(alloc, text)?,
        }))),
        None => Ok(None),
    }
}

#[tactic(auto, unfolding(crate::specs::Requests::reword_in))]
fn reword_from(alloc: Global, value: &Value) -> Result<Option<Request>, Memory>
    ensures { IfOk result (λ request. request ≡ reword_in (view value.now)) }
{
    let Some(word) = text_of(value, "word") else {
        return Ok(None);
    };
    match texts_of(alloc, value, "forms")? {
        Some(forms) => Ok(Some(Request::OnWord {
            word: Text8::from_str(alloc, word)?,
            asked: WordRequest::Reword {
                forms: Text8s::from_vec(forms),
            },
        })),
        None => Ok(None),
    }
}

#[tactic(auto, unfolding(crate::specs::Requests::grammar_in))]
fn grammar_from(alloc: Global, value: &Value) -> Result<Option<Request>, Memory>
    ensures { IfOk result (λ request. request ≡ grammar_in (view value.now)) }
{
    match text_of(value, "text") {
        Some(text) => Ok(Some(Request::OnWiki(WikiRequest::Grammar {
            text: Text8::from_str(alloc, text)?,
        }))),
        None => Ok(None),
    }
}

// The text at a key, if there is one.
pub(crate) fn text_of<'a>(value: &'a Value, key: &str) -> Option<&'a str>
    ensures { option_map (λ text. text.now) result ≡ text_at key.now (view value.now) }
{
    value.get(key).and_then(Value::as_str)
}

// The texts of the list at a key, if it is a list of texts.
fn texts_of(alloc: Global, value: &Value, key: &str) -> Result<Option<Vec<Text8>>, Memory>
    ensures { IfOk result (λ texts. option_map (λ v. v.items) texts ≡ texts_at key.now (view value.now)) }
{
    let Some(items) = value.get(key).and_then(Value::as_array) else {
        return Ok(None);
    };
    texts_from(alloc, items)
}

fn texts_from(alloc: Global, items: &[Value]) -> Result<Option<Vec<Text8>>, Memory>
    ensures { IfOk result (λ texts. option_map (λ v. v.items) texts ≡ texts_in (items_view items.now)) }
{
    let mut texts = Vec::new(alloc);
    for item in items {
        let Some(text) = item.as_str() else {
            return Ok(None);
        };
        texts.push(Text8::from_str(alloc, text)?)?;
    }
    Ok(Some(texts))
}
