// What a request changes.
ghost use Rattle.std.specs.Prelude.{◌≡◌, IsSome, IfSome};
ghost use Rattle.articles.specs.Articles.{article_of};
ghost use Rattle.wiki_core.specs.Keeping.{changes_words};
ghost use Rattle.turning.specs.Turning.{article_changed, changes_article};
ghost use Rattle.turning.specs.Laws.{is_refused};

use wiki_base::{SessionId, WordId};
use wiki_core::Wiki;
use wiki_talk::{ArticleRequest, Reply, Request, SessionRequest, WikiRequest, WordRequest};

// The word of the article that a request changes, if it is done and changes one.
pub(crate) fn article_changed(wiki: &Wiki, request: &Request) -> Option<WordId>
    ensures changed { result ≡ article_changed wiki.now.state request.now }
    ensures there { IfSome result (λ word. IsSome (article_of wiki.now.state.stored.articles word)) }
{
    wiki.is_kept();
    match request {
        Request::OnArticle { article, asked } if changes_article(asked) => {
            wiki.lexicon().find(article.as_str())
        }
        Request::OnSession {
            session,
            asked: SessionRequest::Commit,
        } => wiki.article_of(SessionId(*session)),
        _ => None,
    }
}

// Whether a request on an article changes its sentences, if it is done.
fn changes_article(asked: &ArticleRequest) -> bool
    ensures { result ≡ changes_article asked.now }
{
    match asked {
        ArticleRequest::Read | ArticleRequest::Axioms { .. } | ArticleRequest::Open => false,
        ArticleRequest::Add { .. }
        | ArticleRequest::Edit { .. }
        | ArticleRequest::Remove { .. }
        | ArticleRequest::Retract { .. }
        | ArticleRequest::Reassert { .. } => true,
    }
}

// Whether a request changes words or the grammar, if it is done.
pub(crate) fn changes_words(request: &Request) -> bool
    ensures { result ≡ changes_words request.now }
{
    matches!(
        request,
        Request::OnWiki(WikiRequest::Word { .. })
            | Request::OnWord {
                asked: WordRequest::Reword { .. },
                ..
            }
            | Request::OnWord {
                asked: WordRequest::Unword,
                ..
            }
            | Request::OnWiki(WikiRequest::Grammar { .. })
    )
}

// Whether a reply is a refusal.
pub(crate) fn is_refused(reply: &Reply) -> bool
    ensures { result ≡ is_refused reply.now }
{
    matches!(reply, Reply::Refused(_))
}
