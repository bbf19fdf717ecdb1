// One turn of the wiki with a history.
ghost use Rattle.std.specs.Prelude.{◌≡◌, ◌≤◌, ◌<◌, ◌+◌, length, true, false, Some, None, option_map, IsSome, IsSomeAnd, IfOk, IfSome, OnErr, MatchOption};
ghost use Rattle.lexicon.specs.declared.words.TheConstants.{LAST_NUMBER};
ghost use Rattle.lexicon.specs.Words.{canonical_form_of};
ghost use Rattle.articles.specs.Articles.{article_of, CanChange};
ghost use Rattle.wiki_store.specs.PuttingBack.{CanBePut, IsOfArticle};
ghost use Rattle.wiki_core.specs.Holding.{store_held, IsKept};
ghost use Rattle.wiki_core.specs.Stepping.{KeptStep};
ghost use Rattle.wiki_core.specs.PuttingBack.{put_back};
ghost use Rattle.plain_wiki.specs.Words.{full_at};
ghost use Rattle.wiki_core.specs.Keeping.{changes_words};
ghost use Rattle.turning.specs.Turning.{KeptTurn, CarriesHistory, article_changed};
ghost use Rattle.turning.specs.Recalling.{recalling, FitsHistory};

use crate::touching::{article_changed, changes_words, is_refused};
use history::{History, Kept};
use lexicon::LAST_NUMBER;
use std::alloc::Global;
use wiki_base::{Memory, Text8, WordId};
use wiki_core::Wiki;
use wiki_talk::{Limit, LineRequest, Refusal, Reply, Request};

/// Takes one turn: does a request, or takes the newest change of sentences back, or does the newest that was taken back again;
/// or refuses it, which changes nothing. Where there is no memory nothing changes.
pub fn turn(
    alloc: Global,
    wiki: &mut Wiki,
    history: &mut History,
    request: &LineRequest,
) -> Result<Reply, Memory>
    requires { FitsHistory wiki.old.state.stored history.old }
    ensures turn { IfOk result (λ reply. KeptTurn (recalling wiki.old history.old) request.now reply (recalling wiki.new history.new)) }
    ensures fits { FitsHistory wiki.new.state.stored history.new }
    ensures wiki { OnErr result (wiki.new ≡ wiki.old) }
    ensures history { OnErr result (history.new ≡ history.old) }
{
    match request {
        LineRequest::Step(request) => step(wiki, history, request),
        LineRequest::Undo => undo(wiki, history),
        LineRequest::Redo => redo(wiki, history),
    }
}

// Does a request, and notes what stood before a change.
fn step(wiki: &mut Wiki, history: &mut History, request: &Request) -> Result<Reply, Memory>
    requires { FitsHistory wiki.old.state.stored history.old }
    ensures step { IfOk result (λ reply. KeptStep wiki.old request.now reply wiki.new) }
    ensures history { IfOk result (λ reply. CarriesHistory (recalling wiki.old history.old) request.now reply (recalling wiki.new history.new)) }
    ensures fits { FitsHistory wiki.new.state.stored history.new }
    ensures wiki_stays { OnErr result (wiki.new ≡ wiki.old) }
    ensures history_stays { OnErr result (history.new ≡ history.old) }
{
    if changes_words(request) {
        return step_words(wiki, history, request);
    }
    match article_changed(wiki, request) {
        Some(word) => step_article(wiki, history, request, word),
        None => wiki.step(request),
    }
}

// Does a request that changes words. Where it is done, no change can be taken back.
fn step_words(wiki: &mut Wiki, history: &mut History, request: &Request) -> Result<Reply, Memory>
    requires words { changes_words request.now ≡ true }
    requires fits { FitsHistory wiki.old.state.stored history.old }
    ensures step { IfOk result (λ reply. KeptStep wiki.old request.now reply wiki.new) }
    ensures history { IfOk result (λ reply. CarriesHistory (recalling wiki.old history.old) request.now reply (recalling wiki.new history.new)) }
    ensures fits { FitsHistory wiki.new.state.stored history.new }
    ensures wiki_stays { OnErr result (wiki.new ≡ wiki.old) }
    ensures history_stays { OnErr result (history.new ≡ history.old) }
{
    let reply = wiki.step(request)?;
    if !is_refused(&reply) {
        history.clear();
    }
    Ok(reply)
}

// Does a request that changes an article. What stood before is copied first, so that nothing is lost for want of memory.
fn step_article(
    wiki: &mut Wiki,
    history: &mut History,
    request: &Request,
    word: WordId,
) -> Result<Reply, Memory>
    requires words { changes_words request.now ≡ false }
    requires changed { article_changed wiki.old.state request.now ≡ Some word }
    requires there { IsSome (article_of wiki.old.state.stored.articles word) }
    requires fits { FitsHistory wiki.old.state.stored history.old }
    ensures step { IfOk result (λ reply. KeptStep wiki.old request.now reply wiki.new) }
    ensures history { IfOk result (λ reply. CarriesHistory (recalling wiki.old history.old) request.now reply (recalling wiki.new history.new)) }
    ensures fits { FitsHistory wiki.new.state.stored history.new }
    ensures wiki_stays { OnErr result (wiki.new ≡ wiki.old) }
    ensures history_stays { OnErr result (history.new ≡ history.old) }
{
    wiki.is_kept();
    let before = standing(wiki, word)?;
    let reply = wiki.step(request)?;
    if !is_refused(&reply) {
        history.note(before);
    }
    Ok(reply)
}

// What stands of an article that is there.
fn standing(wiki: &Wiki, word: WordId) -> Result<Kept, Memory>
    requires { IsSome (article_of wiki.now.state.stored.articles word) }
    ensures { IfOk result (IsOfArticle (store_held wiki.now) word) }
{
    match wiki.keep(word)? {
        Some(kept) => Ok(kept),
        None => unreachable!(),
    }
}

// Takes the newest change back.
fn undo(wiki: &mut Wiki, history: &mut History) -> Result<Reply, Memory>
    requires { FitsHistory wiki.old.state.stored history.old }
    ensures turn { IfOk result (λ reply. KeptTurn (recalling wiki.old history.old) LineRequest.Undo reply (recalling wiki.new history.new)) }
    ensures fits { FitsHistory wiki.new.state.stored history.new }
    ensures wiki { OnErr result (wiki.new ≡ wiki.old) }
    ensures history { OnErr result (history.new ≡ history.old) }
{
    let Some(last) = history.last() else {
        return Ok(Reply::Refused(Refusal::Nothing));
    };
    let word = last.article;
    wiki.is_kept();
    if is_at_last_revision(wiki, word) {
        return Ok(out_of_numbers());
    }
    let form = wiki.form_of(word)?;
    let model = wiki.model_of(last)?;
    let now = standing(wiki, word)?;
    match history.undone(now) {
        Some(before) => {
            let _done = wiki.put_back(before, model);
            Ok(Reply::Undo { article: form })
        }
        None => unreachable!(),
    }
}

// Does the newest change that was taken back again.
fn redo(wiki: &mut Wiki, history: &mut History) -> Result<Reply, Memory>
    requires { FitsHistory wiki.old.state.stored history.old }
    ensures turn { IfOk result (λ reply. KeptTurn (recalling wiki.old history.old) LineRequest.Redo reply (recalling wiki.new history.new)) }
    ensures fits { FitsHistory wiki.new.state.stored history.new }
    ensures wiki { OnErr result (wiki.new ≡ wiki.old) }
    ensures history { OnErr result (history.new ≡ history.old) }
{
    let Some(next) = history.next() else {
        return Ok(Reply::Refused(Refusal::Nothing));
    };
    let word = next.article;
    wiki.is_kept();
    if is_at_last_revision(wiki, word) {
        return Ok(out_of_numbers());
    }
    let form = wiki.form_of(word)?;
    let model = wiki.model_of(next)?;
    let now = standing(wiki, word)?;
    match history.redone(now) {
        Some(after) => {
            let _done = wiki.put_back(after, model);
            Ok(Reply::Redo { article: form })
        }
        None => unreachable!(),
    }
}

// Whether an article that is there was changed as often as may be.
fn is_at_last_revision(wiki: &Wiki, word: WordId) -> bool
    requires { IsSome (article_of wiki.now.state.stored.articles word) }
    ensures yes { result ≡ true → IsSomeAnd (article_of wiki.now.state.stored.articles word) (λ article. article.revision.0 ≡ LAST_NUMBER) }
    ensures no { result ≡ false → CanChange wiki.now.state.stored.articles word }
{
    match wiki.revision(word) {
        Some(revision) => revision.0 == LAST_NUMBER,
        None => unreachable!(),
    }
}

// The refusal of a change of an article that was changed as often as may be.
fn out_of_numbers() -> Reply
    ensures { result ≡ Reply.Refused (full_at Limit.Numbers) }
{
    let which = Limit::Numbers;
    Reply::Refused(Refusal::Full {
        which,
        limit: which.amount(),
    })
}
