// The paths of the wiki.
ghost use Rattle.std.specs.Prelude.{◌≡◌, IfOk, OnOk, ◌==◌, map, option_map, MatchOption};
ghost use Rattle.std.specs.List.{before_first};
ghost use Rattle.matchit.specs.Seek.{first};
ghost use Rattle.http_front.specs.Routes.{route_shown, routes, with_route, table, goal_at, path_of, segment_of, file_segment, segment_behind};

use crate::goals::{Goal, InSession, OnArticle};
use matchit::{InsertError, Router};
use std::alloc::Global;
use wiki_base::Memory;

// The paths, and what each is for.
fn routes() -> &'static [(&'static str, Goal)]
    ensures { map route_shown result.now ≡ routes }
{
    &[
        ("/", Goal::Index),
        ("/word", Goal::NewWord),
        ("/article/{word}", Goal::Article(OnArticle::Read)),
        ("/article/{word}/add", Goal::Article(OnArticle::Add)),
        ("/article/{word}/edit", Goal::Article(OnArticle::Edit)),
        ("/article/{word}/remove", Goal::Article(OnArticle::Remove)),
        ("/article/{word}/retract", Goal::Article(OnArticle::Retract)),
        (
            "/article/{word}/reassert",
            Goal::Article(OnArticle::Reassert),
        ),
        ("/article/{word}/open", Goal::Article(OnArticle::Open)),
        ("/session/{n}", Goal::Session(InSession::Menu)),
        ("/session/{n}/type", Goal::Session(InSession::Type)),
        ("/session/{n}/back", Goal::Session(InSession::Back)),
        ("/session/{n}/refresh", Goal::Session(InSession::Refresh)),
        ("/session/{n}/commit", Goal::Session(InSession::Commit)),
        ("/session/{n}/drop", Goal::Session(InSession::Drop)),
        ("/api", Goal::Line),
        ("/editor", Goal::Editor),
        ("/editor/{file}", Goal::EditorFile),
    ]
}

/// A router of the paths.
#[tactic(auto, unfolding(crate::specs::Routes::table))]
pub fn router(alloc: Global) -> Result<Router<Goal>, Memory>
    ensures { IfOk result (λ router. router ≡ table) }
{
    let mut router = Router::new(alloc);
    let rows = routes();
    for row in rows {
        insert(&mut router, row.0, row.1)?;
    }
    Ok(router)
}

#[tactic(auto, using(crate::proofs::RouteLemmas::inserted))]
fn insert(router: &mut Router<Goal>, path: &str, goal: Goal) -> Result<(), Memory>
    ensures { OnOk result (router.new ≡ with_route router.old (path.now, goal)) }
{
    match router.insert(path, goal) {
        Ok(()) => Ok(()),
        Err(_) => Err(Memory),
    }
}

/// What a path is for.
#[tactic(auto, unfolding(crate::specs::Routes::goal_at))]
pub fn goal_at(router: &Router<Goal>, path: &str) -> Option<Goal>
    ensures { result ≡ option_map (λ route. route.value) (first router.now path.now) }
{
    match router.at(path) {
        Ok(found) => Some(*found.value),
        Err(_) => None,
    }
}

/// The path of a request's target.
#[tactic(auto, unfolding(crate::specs::Routes::path_of))]
pub fn path_of(target: &str) -> &str
    ensures { result.now ≡ path_of target.now }
{
    match cut(target) {
        Some((path, _)) => path,
        None => target,
    }
}

// What stands before the first question mark and what after it, where there is one.
fn cut(target: &str) -> Option<(&str, &str)>
    ensures { MatchOption result (before_first (λ b. b == 63) target.now ≡ target.now) (λ parts. parts.0.now ≡ before_first (λ b. b == 63) target.now) }
{
    target.split_once('?')
}

/// The segment behind `/article/` or `/session/`.
#[tactic(auto, unfolding(crate::specs::Routes::segment_of))]
pub fn segment_of(path: &[u8]) -> &[u8]
    ensures { result.now ≡ segment_of path.now }
{
    segment_behind(path, 9)
}

/// The segment behind `/editor/`.
#[tactic(auto, unfolding(crate::specs::Routes::file_segment))]
pub fn file_segment(path: &[u8]) -> &[u8]
    ensures { result.now ≡ file_segment path.now }
{
    segment_behind(path, 8)
}

// What stands behind so many bytes, up to a slash.
#[tactic(auto, unfolding(crate::specs::Routes::segment_behind), using(crate::proofs::RouteLemmas::short_segment))]
fn segment_behind(path: &[u8], front: usize) -> &[u8]
    ensures { result.now ≡ segment_behind front path.now }
{
    if path.len() < front {
        return &[];
    }
    before_slash(&path[front..])
}

// The bytes before the first slash, or all where there is none.
fn before_slash(bytes: &[u8]) -> &[u8]
    ensures { result.now ≡ before_first (λ b. b == 47) bytes.now }
{
    match bytes.iter().position(|byte| *byte == b'/') {
        Some(end) => &bytes[..end],
        None => bytes,
    }
}
