// The lines of requests and replies.
ghost use Rattle.std.specs.Prelude.{◌≡◌, true, false, IfOk, codes};
ghost use Rattle.serde_json.specs.Data.{boolean, string, number, unsigned, array, object, no_members, member};
ghost use Rattle.serde_json.specs.View.{view};
ghost use Rattle.wire_json.specs.Replies.{reply_value, done_value, tokens_value, told_article_value, reply_line, bad_request_value, bad_request_line};
ghost use Rattle.wire_json.specs.Values.{menu_value, sentences_items};
ghost use Rattle.wire_json.specs.Requests.{request_value, request_line, place_value, session_value};
ghost use Rattle.wire_json.specs.Told.{fits_line, gives_line};

use crate::line::line_of;
use crate::refusals::refusal_value;
use crate::statuses::{commit_value, meant_value, sentences_value, status_value};
use crate::values::{menu_value, numbers_value, texts_value, word_value, words_value};
use lexicon::Kind;
use serde_json::{Value, json};
use std::alloc::Global;
use wiki_base::{Memory, Text8};
use wiki_io::MAX_LINE;
use wiki_talk::{
    ArticleRequest, BAD_REQUEST, MenuView, Reply, Request, SentenceView, SessionRequest,
    WikiRequest, WordRequest, WordView, kind_name,
};

/// The line of a reply, with its newline.
pub fn reply_line(alloc: Global, reply: &Reply) -> Result<Text8, Memory>
    ensures { IfOk result (λ line. line ≡ reply_line reply.now) }
{
    line_of(alloc, &reply_value(alloc, reply)?)
}

/// The line that answers a line which is too long or is no request, with its newline.
pub fn bad_request_line(alloc: Global) -> Result<Text8, Memory>
    ensures { IfOk result (λ line. line ≡ bad_request_line) }
{
    line_of(alloc, &bad_request_value(alloc)?)
}

/// The line of a request, with its newline: `do` and the request's own members.
pub fn request_line(alloc: Global, request: &Request) -> Result<Text8, Memory>
    ensures { IfOk result (λ line. line ≡ request_line request.now) }
{
    line_of(alloc, &request_value(alloc, request)?)
}

/// If the request gives a grammar, its line isn't too long (`MAX_LINE`).
pub fn gives_line(alloc: Global, request: &Request) -> Result<bool, Memory>
    ensures { IfOk result (λ gives. gives ≡ gives_line request.now) }
{
    if gives_grammar(request) {
        fits_line(alloc, request)
    } else {
        Ok(true)
    }
}

// The request gives a grammar.
fn gives_grammar(request: &Request) -> bool
    ensures yes { result ≡ true → gives_line request.now ≡ fits_line request.now }
    ensures no { result ≡ false → gives_line request.now ≡ true }
{
    matches!(request, Request::OnWiki(WikiRequest::Grammar { .. }))
}

fn fits_line(alloc: Global, request: &Request) -> Result<bool, Memory>
    ensures { IfOk result (λ fits. fits ≡ fits_line request.now) }
{
    let line = request_line(alloc, request)?;
    Ok(line.as_bytes().len() <= MAX_LINE)
}

fn bad_request_value(alloc: Global) -> Result<Value, Memory>
    ensures { IfOk result (λ value. view value ≡ bad_request_value) }
{
    Ok(json!(in alloc; {"name": BAD_REQUEST.name, "refused": BAD_REQUEST.number})?)
}

fn reply_value(alloc: Global, reply: &Reply) -> Result<Value, Memory>
    ensures { IfOk result (λ value. view value ≡ reply_value reply.now) }
{
    match reply {
        Reply::Word => Ok(json!(in alloc; {"done": "word"})?),
        Reply::Find { word } => find_reply_value(alloc, word),
        Reply::Words { words } => words_reply_value(alloc, words.as_slice()),
        Reply::Parse { code } => parse_reply_value(alloc, code.as_slice()),
        Reply::Reword => done_value(alloc, "reword"),
        Reply::Unword => done_value(alloc, "unword"),
        Reply::Add { status, .. } => status_value(alloc, "add", *status),
        Reply::Edit { status, .. } => status_value(alloc, "edit", *status),
        Reply::Remove => done_value(alloc, "remove"),
        Reply::Retract { status } => status_value(alloc, "retract", *status),
        Reply::Reassert { status } => status_value(alloc, "reassert", *status),
        Reply::Read {
            revision,
            sentences,
            ..
        } => read_reply_value(alloc, *revision, sentences.as_slice()),
        Reply::Axioms { meant } => meant_value(alloc, meant),
        Reply::Open { session } => {
            let session = *session;
            Ok(json!(in alloc; {"done": "open", "session": session})?)
        }
        Reply::Type { tokens } => tokens_value(alloc, "type", *tokens),
        Reply::Back { tokens } => tokens_value(alloc, "back", *tokens),
        Reply::Menu { menu, whole, .. } => menu_reply_value(alloc, menu, *whole),
        Reply::Commit {
            article,
            status,
            ..
        } => commit_value(alloc, article.as_str(), *status),
        Reply::Refresh => done_value(alloc, "refresh"),
        Reply::Drop => done_value(alloc, "drop"),
        Reply::Grammar => done_value(alloc, "grammar"),
        Reply::Undo { article } => told_article_value(alloc, "undo", article),
        Reply::Redo { article } => told_article_value(alloc, "redo", article),
        Reply::Refused(refusal) => refusal_value(alloc, refusal),
    }
}

fn done_value(alloc: Global, name: &str) -> Result<Value, Memory>
    ensures { IfOk result (λ value. view value ≡ done_value name.now) }
{
    Ok(json!(in alloc; {"done": name})?)
}

fn find_reply_value(alloc: Global, word: &WordView) -> Result<Value, Memory>
    ensures { IfOk result (λ value. view value ≡ reply_value (Reply.Find word.now)) }
{
    let word = word_value(alloc, word)?;
    Ok(json!(in alloc; {"done": "find", "word": word})?)
}

fn words_reply_value(alloc: Global, words: &[WordView]) -> Result<Value, Memory>
    ensures { IfOk result (λ value. view value ≡ reply_value (Reply.Words words.now)) }
{
    let words = words_value(alloc, words)?;
    Ok(json!(in alloc; {"done": "words", "words": words})?)
}

fn parse_reply_value(alloc: Global, code: &[u32]) -> Result<Value, Memory>
    ensures { IfOk result (λ value. view value ≡ reply_value (Reply.Parse code.now)) }
{
    let code = numbers_value(alloc, code)?;
    Ok(json!(in alloc; {"code": code, "done": "parse"})?)
}

fn read_reply_value(
    alloc: Global,
    revision: u32,
    sentences: &[SentenceView],
) -> Result<Value, Memory>
    ensures { IfOk result (λ value. view value ≡ object (member (codes "done") (string (codes "read"))
        (member (codes "revision") (number (unsigned revision)) (member (codes "sentences") (array (sentences_items sentences.now)) no_members)))) }
{
    let sentences = sentences_value(alloc, sentences)?;
    Ok(json!(in alloc; {"done": "read", "revision": revision, "sentences": sentences})?)
}

fn menu_reply_value(alloc: Global, menu: &MenuView, whole: bool) -> Result<Value, Memory>
    ensures { IfOk result (λ value. view value ≡ object (member (codes "done") (string (codes "menu"))
        (member (codes "menu") (menu_value menu.now) (member (codes "whole") (boolean whole) no_members)))) }
{
    let menu = menu_value(alloc, menu)?;
    Ok(json!(in alloc; {"done": "menu", "menu": menu, "whole": whole})?)
}

// A reply that tells the number of a session's tokens.
fn tokens_value(alloc: Global, name: &str, tokens: u32) -> Result<Value, Memory>
    ensures { IfOk result (λ value. view value ≡ tokens_value name.now tokens) }
{
    Ok(json!(in alloc; {"done": name, "tokens": tokens})?)
}

// A reply that tells the article of a change.
fn told_article_value(alloc: Global, name: &str, article: &Text8) -> Result<Value, Memory>
    ensures { IfOk result (λ value. view value ≡ told_article_value name.now article.now) }
{
    let article = article.as_str();
    Ok(json!(in alloc; {"article": article, "done": name})?)
}

fn request_value(alloc: Global, request: &Request) -> Result<Value, Memory>
    ensures { IfOk result (λ value. view value ≡ request_value request.now) }
{
    match request {
        Request::OnWiki(asked) => on_wiki_value(alloc, asked),
        Request::OnWord { word, asked } => on_word_value(alloc, word, asked),
        Request::OnArticle { article, asked } => on_article_value(alloc, article, asked),
        Request::OnSession { session, asked } => on_session_value(alloc, *session, asked),
    }
}

fn on_wiki_value(alloc: Global, asked: &WikiRequest) -> Result<Value, Memory>
    ensures { IfOk result (λ value. view value ≡ request_value (Request.OnWiki asked.now)) }
{
    match asked {
        WikiRequest::Word { kind, forms } => word_request_value(alloc, *kind, forms.as_slice()),
        WikiRequest::Words => Ok(json!(in alloc; {"do": "words"})?),
        WikiRequest::Parse { text } => {
            let text = text.as_str();
            Ok(json!(in alloc; {"do": "parse", "text": text})?)
        }
        WikiRequest::Grammar { text } => {
            let text = text.as_str();
            Ok(json!(in alloc; {"do": "grammar", "text": text})?)
        }
    }
}

fn on_word_value(alloc: Global, word: &Text8, asked: &WordRequest) -> Result<Value, Memory>
    ensures { IfOk result (λ value. view value ≡ request_value (Request.OnWord word.now asked.now)) }
{
    match asked {
        WordRequest::Find => form_value(alloc, "find", word),
        WordRequest::Reword { forms } => reword_request_value(alloc, word, forms.as_slice()),
        WordRequest::Unword => form_value(alloc, "unword", word),
    }
}

fn on_article_value(alloc: Global, article: &Text8, asked: &ArticleRequest) -> Result<Value, Memory>
    ensures { IfOk result (λ value. view value ≡ request_value (Request.OnArticle article.now asked.now)) }
{
    match asked {
        ArticleRequest::Read => article_value(alloc, "read", article),
        ArticleRequest::Add { at, text } => add_request_value(alloc, article, *at, text),
        ArticleRequest::Edit { at, text } => edit_request_value(alloc, article, *at, text),
        ArticleRequest::Remove { at } => place_value(alloc, "remove", article, *at),
        ArticleRequest::Retract { at } => place_value(alloc, "retract", article, *at),
        ArticleRequest::Reassert { at } => place_value(alloc, "reassert", article, *at),
        ArticleRequest::Axioms { at } => place_value(alloc, "axioms", article, *at),
        ArticleRequest::Open => article_value(alloc, "open", article),
    }
}

fn on_session_value(alloc: Global, session: u32, asked: &SessionRequest) -> Result<Value, Memory>
    ensures { IfOk result (λ value. view value ≡ request_value (Request.OnSession session asked.now)) }
{
    match asked {
        SessionRequest::Type { text } => type_request_value(alloc, session, text),
        SessionRequest::Back => session_value(alloc, "back", session),
        SessionRequest::Menu => session_value(alloc, "menu", session),
        SessionRequest::Commit => session_value(alloc, "commit", session),
        SessionRequest::Refresh => session_value(alloc, "refresh", session),
        SessionRequest::Drop => session_value(alloc, "drop", session),
    }
}

// The line of a request for a word.
fn form_value(alloc: Global, name: &str, word: &Text8) -> Result<Value, Memory>
    ensures { IfOk result (λ value. view value ≡ object (member (codes "do") (string name.now) (member (codes "word") (string word.now) no_members))) }
{
    let word = word.as_str();
    Ok(json!(in alloc; {"do": name, "word": word})?)
}

fn word_request_value(alloc: Global, kind: Kind, forms: &[Text8]) -> Result<Value, Memory>
    ensures { IfOk result (λ value. view value ≡ request_value (Request.OnWiki (WikiRequest.Word kind forms.now))) }
{
    let forms = texts_value(alloc, forms)?;
    let kind = kind_name(kind);
    Ok(json!(in alloc; {"do": "word", "forms": forms, "kind": kind})?)
}

fn reword_request_value(alloc: Global, word: &Text8, forms: &[Text8]) -> Result<Value, Memory>
    ensures { IfOk result (λ value. view value ≡ request_value (Request.OnWord word.now (WordRequest.Reword forms.now))) }
{
    let forms = texts_value(alloc, forms)?;
    let word = word.as_str();
    Ok(json!(in alloc; {"do": "reword", "forms": forms, "word": word})?)
}

fn add_request_value(
    alloc: Global,
    article: &Text8,
    at: Option<u32>,
    text: &Text8,
) -> Result<Value, Memory>
    ensures { IfOk result (λ value. view value ≡ request_value (Request.OnArticle article.now (ArticleRequest.Add at text.now))) }
{
    let article = article.as_str();
    let text = text.as_str();
    match at {
        Some(at) => Ok(json!(in alloc; {"article": article, "at": at, "do": "add", "text": text})?),
        None => Ok(json!(in alloc; {"article": article, "do": "add", "text": text})?),
    }
}

fn edit_request_value(
    alloc: Global,
    article: &Text8,
    at: u32,
    text: &Text8,
) -> Result<Value, Memory>
    ensures { IfOk result (λ value. view value ≡ request_value (Request.OnArticle article.now (ArticleRequest.Edit at text.now))) }
{
    let article = article.as_str();
    let text = text.as_str();
    Ok(json!(in alloc; {"article": article, "at": at, "do": "edit", "text": text})?)
}

fn type_request_value(alloc: Global, session: u32, text: &Text8) -> Result<Value, Memory>
    ensures { IfOk result (λ value. view value ≡ request_value (Request.OnSession session (SessionRequest.Type text.now))) }
{
    let text = text.as_str();
    Ok(json!(in alloc; {"do": "type", "session": session, "text": text})?)
}

// The line of a request for a session.
fn session_value(alloc: Global, name: &str, session: u32) -> Result<Value, Memory>
    ensures { IfOk result (λ value. view value ≡ session_value name.now session) }
{
    Ok(json!(in alloc; {"do": name, "session": session})?)
}

// The line of a request for an article.
fn article_value(alloc: Global, name: &str, article: &Text8) -> Result<Value, Memory>
    ensures { IfOk result (λ value. view value ≡ object (member (codes "article") (string article.now) (member (codes "do") (string name.now) no_members))) }
{
    let article = article.as_str();
    Ok(json!(in alloc; {"article": article, "do": name})?)
}

// The line of a request for a place.
fn place_value(alloc: Global, name: &str, article: &Text8, at: u32) -> Result<Value, Memory>
    ensures { IfOk result (λ value. view value ≡ place_value name.now article.now at) }
{
    let article = article.as_str();
    Ok(json!(in alloc; {"article": article, "at": at, "do": name})?)
}
