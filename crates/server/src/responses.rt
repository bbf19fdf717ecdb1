// The bytes of a response, with which its connection ends.
ghost use Rattle.std.specs.Prelude.{◌≡◌, ◌++◌, [], codes, IfOk};
ghost use Rattle.std.specs.String.{string_bytes};
ghost use Rattle.form_urlencoded.specs.Form.{byte_serialize};
ghost use Rattle.http_front.specs.Forms.{article_path, session_path};
ghost use Rattle.wire_json.specs.Replies.{reply_line};
ghost use Rattle.server.specs.Responses.{phrase_of, html, json, response_bytes, page_response, line_response, way_response, refusal_status, refused_response, session_opened, article_grown, done_response, response_of, allow_line, status_page, status_response, busy_response, own_response};

use editor_files::text_of;
use form_urlencoded::byte_serialize;
use http::StatusCode;
use http_front::{Own, Then, Verb};
use pages::{page, refusal_page};
use std::alloc::Global;
use wiki_base::{Memory, Text8};
use wiki_talk::{BAD_REQUEST, Refusal, Reply};
use wire_json::reply_line;

const HTML: &str = "text/html; charset=utf-8";

const JSON: &str = "application/json";

/// The bytes of the response to a reply: its page, its line, or the way to what shows it; of a refusal its page or its line.
#[tactic(auto, unfolding(crate::specs::Responses::response_of))]
pub fn response(alloc: Global, then: &Then, reply: &Reply) -> Result<Text8, Memory>
    ensures { IfOk result (λ response. response ≡ response_of then.now reply.now) }
{
    match reply {
        Reply::Refused(refusal) => refused_response(alloc, then, refusal, reply),
        _ => done_response(alloc, then, reply),
    }
}

fn refused_response(
    alloc: Global,
    then: &Then,
    refusal: &Refusal,
    reply: &Reply,
) -> Result<Text8, Memory>
    requires { reply.now ≡ Reply.Refused refusal.now }
    ensures { IfOk result (λ response. response ≡ refused_response then.now refusal.now) }
{
    let status = refusal_status(refusal);
    match then {
        Then::Line => line_response(alloc, status, reply),
        _ => {
            let title = refusal.title();
            let page = refusal_page(alloc, title.number, title.name)?;
            page_response(alloc, status, page.as_str())
        }
    }
}

fn refusal_status(refusal: &Refusal) -> u16
    ensures { result ≡ refusal_status refusal.now }
{
    match refusal {
        Refusal::NoWord { .. } | Refusal::NoPlace { .. } | Refusal::NoSession { .. } => 404,
        _ => 409,
    }
}

fn done_response(alloc: Global, then: &Then, reply: &Reply) -> Result<Text8, Memory>
    ensures { IfOk result (λ response. response ≡ done_response then.now reply.now) }
{
    match then {
        Then::Page(session) => match page(alloc, *session, reply)? {
            Some(page) => page_response(alloc, 200, page.as_str()),
            None => page_response(alloc, 200, ""),
        },
        Then::Line => line_response(alloc, 200, reply),
        Then::Go(path) => way_response(alloc, path.as_str()),
        Then::GoSession => way_to_session(alloc, session_opened(reply)),
        Then::GoArticle => way_to_article(alloc, article_grown(reply)),
    }
}

fn session_opened(reply: &Reply) -> u32
    ensures { result ≡ session_opened reply.now }
{
    match reply {
        Reply::Open { session } => *session,
        _ => 0,
    }
}

fn article_grown(reply: &Reply) -> &str
    ensures { result.now ≡ article_grown reply.now }
{
    match reply {
        Reply::Commit { article, .. } => article.as_str(),
        _ => "",
    }
}

fn page_response(alloc: Global, status: u16, page: &str) -> Result<Text8, Memory>
    ensures { IfOk result (λ response. response ≡ page_response status page.now) }
{
    response_bytes(alloc, status, HTML, "", page)
}

fn line_response(alloc: Global, status: u16, reply: &Reply) -> Result<Text8, Memory>
    ensures { IfOk result (λ response. response ≡ line_response status (reply_line reply.now)) }
{
    let line = reply_line(alloc, reply)?;
    response_bytes(alloc, status, JSON, "", line.as_str())
}

#[tactic(auto, unfolding(crate::specs::Responses::way_response))]
fn way_response(alloc: Global, path: &str) -> Result<Text8, Memory>
    ensures { IfOk result (λ response. response ≡ way_response path.now) }
{
    let more = format!(in alloc; "Location: {path}\r\n")?;
    response_bytes(alloc, 303, HTML, more.as_str(), "")
}

fn way_to_session(alloc: Global, session: u32) -> Result<Text8, Memory>
    ensures { IfOk result (λ response. response ≡ way_response (session_path session)) }
{
    let path = session_path(alloc, session)?;
    way_response(alloc, path.as_str())
}

#[tactic(auto, unfolding(http_front::specs::Forms::session_path))]
fn session_path(alloc: Global, session: u32) -> Result<String, Memory>
    ensures { IfOk result (λ path. string_bytes path ≡ session_path session) }
{
    Ok(format!(in alloc; "/session/{session}")?)
}

fn way_to_article(alloc: Global, word: &str) -> Result<Text8, Memory>
    ensures { IfOk result (λ response. response ≡ way_response (article_path word.now)) }
{
    let path = article_path(alloc, word)?;
    way_response(alloc, path.as_str())
}

#[tactic(auto, unfolding(http_front::specs::Forms::article_path))]
fn article_path(alloc: Global, word: &str) -> Result<String, Memory>
    ensures { IfOk result (λ path. string_bytes path ≡ article_path word.now) }
{
    let mut path = String::from_str(alloc, "/article/")?;
    for piece in byte_serialize(word.as_bytes()) {
        path.push_str(piece)?;
    }
    Ok(path)
}

/// The response to what is no request of the wiki: the page of the status, with the method that the path has, if it is told.
pub(crate) fn status_response(
    alloc: Global,
    status: u16,
    allow: Option<Verb>,
    bad_line: bool,
) -> Result<Text8, Memory>
    ensures { IfOk result (λ response. response ≡ status_response status allow bad_line) }
{
    let page = status_page(alloc, status, bad_line)?;
    let more = allow_line(alloc, allow)?;
    response_bytes(alloc, status, HTML, more.as_str(), page.as_str())
}

/// The response to an opening where as many connections are open as there may be.
pub(crate) fn busy_response(alloc: Global) -> Result<Text8, Memory>
    ensures { IfOk result (λ response. response ≡ busy_response) }
{
    status_response(alloc, 503, None, false)
}

/// The response that the program has without asking the wiki.
pub(crate) fn own_response(alloc: Global, own: Own) -> Result<Text8, Memory>
    ensures { IfOk result (λ response. response ≡ own_response own) }
{
    match own {
        Own::Way => way_response(alloc, "/editor/index.html"),
        Own::File(file) => response_bytes(alloc, 200, file.content_type(), "", text_of(file)),
    }
}

fn status_page(alloc: Global, status: u16, bad_line: bool) -> Result<Text8, Memory>
    ensures { IfOk result (λ page. page ≡ status_page status bad_line) }
{
    if bad_line {
        refusal_page(alloc, BAD_REQUEST.number, BAD_REQUEST.name)
    } else {
        refusal_page(alloc, u32::from(status), phrase_of(status))
    }
}

#[tactic(auto, unfolding(crate::specs::Responses::allow_line))]
fn allow_line(alloc: Global, allow: Option<Verb>) -> Result<String, Memory>
    ensures { IfOk result (λ line. string_bytes line ≡ allow_line allow) }
{
    match allow {
        Some(verb) => {
            let name = verb.name();
            Ok(format!(in alloc; "Allow: {name}\r\n")?)
        }
        None => Ok(String::new(alloc)),
    }
}

#[tactic(auto, unfolding(crate::specs::Responses::phrase_of))]
fn phrase_of(status: u16) -> &'static str
    ensures { result.now ≡ phrase_of status }
{
    match StatusCode::from_u16(status) {
        Ok(code) => match code.canonical_reason() {
            Some(phrase) => phrase,
            None => "",
        },
        Err(_) => "",
    }
}

#[tactic(auto, unfolding(crate::specs::Responses::response_bytes))]
fn response_bytes(
    alloc: Global,
    status: u16,
    kind: &str,
    more: &str,
    body: &str,
) -> Result<Text8, Memory>
    ensures { IfOk result (λ response. response ≡ response_bytes status kind.now more.now body.now) }
{
    let phrase = phrase_of(status);
    let length = body.len();
    Ok(Text8::from_string(format!(in alloc;
        "HTTP/1.1 {status} {phrase}\r\nContent-Type: {kind}\r\nContent-Length: {length}\r\n{more}Connection: close\r\n\r\n{body}"
    )?))
}
