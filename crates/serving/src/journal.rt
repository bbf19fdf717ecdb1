// The lines of the journal.
ghost use Rattle.std.specs.Prelude.{◌≡◌, None, IfOk};
ghost use Rattle.serving.specs.Journal.{is_change, line_written, change_line, shown_line, journal_line};

use lists::Copied;
use std::alloc::Global;
use wiki_base::{Memory, Text8};
use wiki_talk::{ArticleRequest, Reply, Request, WikiRequest, WordRequest};
use wire_json::request_line;

/// The journal's line for a request with its reply; the empty text where the reply tells of no accepted change.
#[tactic(auto, unfolding(crate::specs::Journal::journal_line))]
pub(crate) fn journal_line(alloc: Global, request: &Request, reply: &Reply) -> Result<Text8, Memory>
    ensures { IfOk result (λ line. line ≡ journal_line request.now reply.now) }
{
    match reply {
        Reply::Refused(_) => Ok(Text8::new(alloc)),
        Reply::Commit { article, shown, .. } => added_line(alloc, article, None, shown),
        Reply::Add { shown, .. } => shown_line(alloc, request, shown),
        Reply::Edit { shown, .. } => shown_line(alloc, request, shown),
        _ => change_line(alloc, request),
    }
}

// A sentence that is added or put in place of another, by what shows it: the text that was sent may be so long that its line
// is none.
#[tactic(auto, unfolding(crate::specs::Journal::shown_line))]
fn shown_line(alloc: Global, request: &Request, shown: &Text8) -> Result<Text8, Memory>
    ensures { IfOk result (λ line. line ≡ shown_line request.now shown.now) }
{
    match request {
        Request::OnArticle {
            article,
            asked: ArticleRequest::Add { at, .. },
        } => added_line(alloc, article, *at, shown),
        Request::OnArticle {
            article,
            asked: ArticleRequest::Edit { at, .. },
        } => edited_line(alloc, article, *at, shown),
        _ => Ok(Text8::new(alloc)),
    }
}

fn added_line(
    alloc: Global,
    article: &Text8,
    at: Option<u32>,
    text: &Text8,
) -> Result<Text8, Memory>
    ensures { IfOk result (λ line. line ≡ line_written (Request.OnArticle article.now (ArticleRequest.Add at text.now))) }
{
    let added = Request::OnArticle {
        article: article.copy()?,
        asked: ArticleRequest::Add {
            at,
            text: text.copy()?,
        },
    };
    let line = line_written(alloc, &added);
    drop(added);
    line
}

fn edited_line(alloc: Global, article: &Text8, at: u32, text: &Text8) -> Result<Text8, Memory>
    ensures { IfOk result (λ line. line ≡ line_written (Request.OnArticle article.now (ArticleRequest.Edit at text.now))) }
{
    let edited = Request::OnArticle {
        article: article.copy()?,
        asked: ArticleRequest::Edit {
            at,
            text: text.copy()?,
        },
    };
    let line = line_written(alloc, &edited);
    drop(edited);
    line
}

#[tactic(auto, unfolding(crate::specs::Journal::change_line))]
fn change_line(alloc: Global, request: &Request) -> Result<Text8, Memory>
    ensures { IfOk result (λ line. line ≡ change_line request.now) }
{
    if is_change(request) {
        line_written(alloc, request)
    } else {
        Ok(Text8::new(alloc))
    }
}

// A request as it is written.
#[tactic(auto, unfolding(crate::specs::Journal::line_written))]
fn line_written(alloc: Global, request: &Request) -> Result<Text8, Memory>
    ensures { IfOk result (λ line. line ≡ line_written request.now) }
{
    request_line(alloc, request)
}

// The request changes the grammar, words or sentences.
#[tactic(auto, unfolding(crate::specs::Journal::is_change))]
fn is_change(request: &Request) -> bool
    ensures { result ≡ is_change request.now }
{
    match request {
        Request::OnWiki(WikiRequest::Word { .. }) => true,
        Request::OnWord {
            asked: WordRequest::Reword { .. },
            ..
        } => true,
        Request::OnWord {
            asked: WordRequest::Unword,
            ..
        } => true,
        Request::OnWiki(WikiRequest::Grammar { .. }) => true,
        Request::OnArticle {
            asked: ArticleRequest::Add { .. },
            ..
        } => true,
        Request::OnArticle {
            asked: ArticleRequest::Edit { .. },
            ..
        } => true,
        Request::OnArticle {
            asked: ArticleRequest::Remove { .. },
            ..
        } => true,
        Request::OnArticle {
            asked: ArticleRequest::Retract { .. },
            ..
        } => true,
        Request::OnArticle {
            asked: ArticleRequest::Reassert { .. },
            ..
        } => true,
        _ => false,
    }
}
