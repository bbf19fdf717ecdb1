// What is asked of the wiki at each path.
ghost use Rattle.std.specs.Prelude.{◌≡◌, IfOk, Some, codes};
ghost use Rattle.http_front.specs.Forms.{session_path};
ghost use Rattle.http_front.specs.Asked.{word_asked, add_asked, edit_asked, place_asked, article_asked, type_asked, session_asked, line_asked, asked};

use crate::forms::{article_path, field, number_field, pieces, session_path};
use crate::goals::{Goal, InSession, OnArticle};
use crate::seen::Then;
use std::alloc::Global;
use wiki_base::{Memory, Text8};
use wiki_talk::{ArticleRequest, Request, SessionRequest, WikiRequest, kind_named};
use wire_json::{gives_line, read_request};

// A request, and the response when it is done.
pub(crate) type Asked = Option<(Request, Then)>;

/// What a body asks at a path, of the word and the session that the path names. Nothing is asked at one of the editor page.
pub(crate) fn asked(
    alloc: Global,
    goal: Goal,
    word: &str,
    session: u32,
    body: &[u8],
) -> Result<Asked, Memory>
    ensures { IfOk result (λ found. found ≡ asked goal word.now session body.now) }
{
    match goal {
        Goal::Index => Ok(Some((Request::OnWiki(WikiRequest::Words), Then::Page(0)))),
        Goal::NewWord => word_asked(alloc, body),
        Goal::Line => line_asked(alloc, body),
        Goal::Article(on_it) => article_asked(alloc, on_it, word, body),
        Goal::Session(in_it) => session_asked(alloc, in_it, session, body),
        Goal::Editor | Goal::EditorFile => Ok(None),
    }
}

#[tactic(auto, unfolding(crate::specs::Asked::line_asked))]
fn line_asked(alloc: Global, body: &[u8]) -> Result<Asked, Memory>
    ensures { IfOk result (λ found. found ≡ line_asked body.now) }
{
    let Some(request) = read_request(alloc, body)? else {
        return Ok(None);
    };
    if gives_line(alloc, &request)? {
        Ok(Some((request, Then::Line)))
    } else {
        Ok(None)
    }
}

#[tactic(auto, unfolding(crate::specs::Asked::word_asked))]
fn word_asked(alloc: Global, body: &[u8]) -> Result<Asked, Memory>
    ensures { IfOk result (λ found. found ≡ word_asked body.now) }
{
    let Some(name) = field(alloc, body, "kind")? else {
        return Ok(None);
    };
    let Some(kind) = kind_named(name.as_str()) else {
        return Ok(None);
    };
    match field(alloc, body, "forms")? {
        Some(text) => {
            let forms = pieces(alloc, text.as_str())?;
            Ok(Some((
                Request::OnWiki(WikiRequest::Word { kind, forms }),
                Then::Go(Text8::from_str(alloc, "/")?),
            )))
        }
        None => Ok(None),
    }
}

fn article_asked(alloc: Global, on_it: OnArticle, word: &str, body: &[u8]) -> Result<Asked, Memory>
    ensures { IfOk result (λ found. found ≡ article_asked on_it word.now body.now) }
{
    match on_it {
        OnArticle::Read => read_asked(alloc, word),
        OnArticle::Add => add_asked(alloc, word, body),
        OnArticle::Edit => edit_asked(alloc, word, body),
        OnArticle::Remove => remove_asked(alloc, word, body),
        OnArticle::Retract => retract_asked(alloc, word, body),
        OnArticle::Reassert => reassert_asked(alloc, word, body),
        OnArticle::Open => open_asked(alloc, word),
    }
}

fn read_asked(alloc: Global, word: &str) -> Result<Asked, Memory>
    ensures { IfOk result (λ found. found ≡ Some (Request.OnArticle word.now ArticleRequest.Read, Then.Page 0)) }
{
    let article = Text8::from_str(alloc, word)?;
    Ok(Some((
        Request::OnArticle {
            article,
            asked: ArticleRequest::Read,
        },
        Then::Page(0),
    )))
}

fn open_asked(alloc: Global, word: &str) -> Result<Asked, Memory>
    ensures { IfOk result (λ found. found ≡ Some (Request.OnArticle word.now ArticleRequest.Open, Then.GoSession)) }
{
    let article = Text8::from_str(alloc, word)?;
    Ok(Some((
        Request::OnArticle {
            article,
            asked: ArticleRequest::Open,
        },
        Then::GoSession,
    )))
}

#[tactic(auto, unfolding(crate::specs::Asked::add_asked))]
fn add_asked(alloc: Global, word: &str, body: &[u8]) -> Result<Asked, Memory>
    ensures { IfOk result (λ found. found ≡ add_asked word.now body.now) }
{
    match field(alloc, body, "text")? {
        Some(text) => {
            let article = Text8::from_str(alloc, word)?;
            let back = article_path(alloc, word)?;
            Ok(Some((
                Request::OnArticle {
                    article,
                    asked: ArticleRequest::Add { at: None, text },
                },
                Then::Go(back),
            )))
        }
        None => Ok(None),
    }
}

#[tactic(auto, unfolding(crate::specs::Asked::edit_asked))]
fn edit_asked(alloc: Global, word: &str, body: &[u8]) -> Result<Asked, Memory>
    ensures { IfOk result (λ found. found ≡ edit_asked word.now body.now) }
{
    let Some(at) = number_field(alloc, body, "at")? else {
        return Ok(None);
    };
    match field(alloc, body, "text")? {
        Some(text) => {
            let article = Text8::from_str(alloc, word)?;
            let back = article_path(alloc, word)?;
            Ok(Some((
                Request::OnArticle {
                    article,
                    asked: ArticleRequest::Edit { at, text },
                },
                Then::Go(back),
            )))
        }
        None => Ok(None),
    }
}

#[tactic(auto, unfolding(crate::specs::Asked::place_asked))]
fn remove_asked(alloc: Global, word: &str, body: &[u8]) -> Result<Asked, Memory>
    ensures { IfOk result (λ found. found ≡ place_asked ArticleRequest.Remove word.now body.now) }
{
    let Some(at) = number_field(alloc, body, "at")? else {
        return Ok(None);
    };
    let article = Text8::from_str(alloc, word)?;
    let back = article_path(alloc, word)?;
    Ok(Some((
        Request::OnArticle {
            article,
            asked: ArticleRequest::Remove { at },
        },
        Then::Go(back),
    )))
}

#[tactic(auto, unfolding(crate::specs::Asked::place_asked))]
fn retract_asked(alloc: Global, word: &str, body: &[u8]) -> Result<Asked, Memory>
    ensures { IfOk result (λ found. found ≡ place_asked ArticleRequest.Retract word.now body.now) }
{
    let Some(at) = number_field(alloc, body, "at")? else {
        return Ok(None);
    };
    let article = Text8::from_str(alloc, word)?;
    let back = article_path(alloc, word)?;
    Ok(Some((
        Request::OnArticle {
            article,
            asked: ArticleRequest::Retract { at },
        },
        Then::Go(back),
    )))
}

#[tactic(auto, unfolding(crate::specs::Asked::place_asked))]
fn reassert_asked(alloc: Global, word: &str, body: &[u8]) -> Result<Asked, Memory>
    ensures { IfOk result (λ found. found ≡ place_asked ArticleRequest.Reassert word.now body.now) }
{
    let Some(at) = number_field(alloc, body, "at")? else {
        return Ok(None);
    };
    let article = Text8::from_str(alloc, word)?;
    let back = article_path(alloc, word)?;
    Ok(Some((
        Request::OnArticle {
            article,
            asked: ArticleRequest::Reassert { at },
        },
        Then::Go(back),
    )))
}

fn session_asked(
    alloc: Global,
    in_it: InSession,
    session: u32,
    body: &[u8],
) -> Result<Asked, Memory>
    ensures { IfOk result (λ found. found ≡ session_asked in_it session body.now) }
{
    match in_it {
        InSession::Menu => Ok(Some((
            Request::OnSession {
                session,
                asked: SessionRequest::Menu,
            },
            Then::Page(session),
        ))),
        InSession::Type => type_asked(alloc, session, body),
        InSession::Back => back_asked(alloc, session),
        InSession::Refresh => refresh_asked(alloc, session),
        InSession::Commit => Ok(Some((
            Request::OnSession {
                session,
                asked: SessionRequest::Commit,
            },
            Then::GoArticle,
        ))),
        InSession::Drop => drop_asked(alloc, session),
    }
}

#[tactic(auto, unfolding(crate::specs::Asked::type_asked))]
fn type_asked(alloc: Global, session: u32, body: &[u8]) -> Result<Asked, Memory>
    ensures { IfOk result (λ found. found ≡ type_asked session body.now) }
{
    match field(alloc, body, "token")? {
        Some(text) => {
            let path = session_path(alloc, session)?;
            Ok(Some((
                Request::OnSession {
                    session,
                    asked: SessionRequest::Type { text },
                },
                Then::Go(path),
            )))
        }
        None => Ok(None),
    }
}

fn back_asked(alloc: Global, session: u32) -> Result<Asked, Memory>
    ensures { IfOk result (λ found. found ≡ Some (Request.OnSession session SessionRequest.Back, Then.Go (session_path session))) }
{
    let path = session_path(alloc, session)?;
    Ok(Some((
        Request::OnSession {
            session,
            asked: SessionRequest::Back,
        },
        Then::Go(path),
    )))
}

fn refresh_asked(alloc: Global, session: u32) -> Result<Asked, Memory>
    ensures { IfOk result (λ found. found ≡ Some (Request.OnSession session SessionRequest.Refresh, Then.Go (session_path session))) }
{
    let path = session_path(alloc, session)?;
    Ok(Some((
        Request::OnSession {
            session,
            asked: SessionRequest::Refresh,
        },
        Then::Go(path),
    )))
}

fn drop_asked(alloc: Global, session: u32) -> Result<Asked, Memory>
    ensures { IfOk result (λ found. found ≡ Some (Request.OnSession session SessionRequest.Drop, Then.Go (codes "/"))) }
{
    let path = Text8::from_str(alloc, "/")?;
    Ok(Some((
        Request::OnSession {
            session,
            asked: SessionRequest::Drop,
        },
        Then::Go(path),
    )))
}
