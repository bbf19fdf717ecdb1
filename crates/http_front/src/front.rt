// The front of the wiki: the request of a connection's bytes.
ghost use Rattle.std.specs.Prelude.{◌≡◌, ◌≤◌, ◌<◌, ◌+◌, ◌++◌, List, ℕ, IfOk, All, length, map, IsUtf8};
ghost use Rattle.httparse.specs.Spans.{IsHeaderWithin, header_bytes};
ghost use Rattle.http_front.specs.Routes.{table, path_of};
ghost use Rattle.http_front.specs.Front.{refused, half_begun, newlines, after_blank, word_in, session_in, own_in, begun_in, begun_for, begun_by, begun_at, begun_with, begun_of, head_part, Begins, seen_of, seen_with, seen_after, Sees, is_line, AsksInLine};
ghost use Rattle.http_front.specs.Cuts.{IsCutAnywhere};
ghost use Rattle.http_front.specs.Forms.{decoded};

use crate::asked::{Asked, asked};
use crate::fields::{body_length, has_transfer_coding, is_bad_host, is_foreign};
use crate::forms::decoded;
use crate::goals::Goal;
use crate::limits::{MOST_BODY, MOST_FIELDS, MOST_HEAD};
use crate::lines::{after_blank, newlines};
use crate::numbers::short_number;
use crate::routes::{file_segment, goal_at, path_of, router, segment_of};
use crate::seen::{Begun, Head, Own, Seen};
use editor_names::file_named;
use httparse::spans::{EMPTY_HEADER_SPAN, HeaderSpan, parse_request};
use httparse::{Error, Status};
use matchit::Router;
use std::alloc::Global;
use std::str::from_utf8;
use wiki_base::{Memory, Text8};

/// The routes of the wiki.
#[derive(Drop)]
pub struct Front {
    alloc: Global,
    router: Router<Goal>,
    pub ghost routed: { router ≡ table },
}

impl Front {
    pub fn new(alloc: Global) -> Result<Front, Memory> {
        let router = router(alloc)?;
        Ok(Front { alloc, router })
    }

    /// What the bytes that have come over a connection since its opening are: no whole request yet, a refusal or a request.
    /// In whatever pieces they came, they are the same.
    pub fn request_of(&self, bytes: &[u8]) -> Result<Seen, Memory>
        ensures sees { IfOk result (λ seen. Sees bytes.now seen) }
        ensures cut { IfOk result (λ seen. IsCutAnywhere bytes.now seen) }
        ensures in_line { IfOk result (λ seen. AsksInLine seen) }
    {
        let seen = self.seen_in(bytes)?;
        Ok(seen)
    }

    #[tactic(auto, using(crate::proofs::HeadLemmas::sees_wait, crate::proofs::HeadLemmas::sees_refusal, crate::proofs::HeadLemmas::sees_head))]
    fn seen_in(&self, bytes: &[u8]) -> Result<Seen, Memory>
        ensures { IfOk result (λ seen. Sees bytes.now seen) }
    {
        match self.head_of(bytes)? {
            Begun::Wait => Ok(Seen::Wait),
            Begun::Refuse { status, allow } => Ok(Seen::Refuse {
                status,
                allow,
                bad_line: false,
            }),
            Begun::Head(head) => self.seen_after(&head, bytes),
        }
    }

    /// What the bytes of a connection are, as a head alone.
    #[tactic(auto, using(crate::proofs::HeadLemmas::begins_whole, crate::proofs::HeadLemmas::begins_never, crate::proofs::HeadLemmas::begins_exceeds, crate::proofs::HeadLemmas::target_text))]
    pub fn head_of(&self, bytes: &[u8]) -> Result<Begun, Memory>
        ensures { IfOk result (λ begun. Begins bytes.now begun) }
    {
        let part = head_part(bytes);
        let mut fields = [EMPTY_HEADER_SPAN; MOST_FIELDS];
        match parse_request(part, &mut fields) {
            Ok(Status::Complete(head)) => {
                let method = head.method.of(part);
                let target = head.path.of(part);
                let told = &fields[..head.headers];
                let begun = self.begun_of(part, method, target, head.version, told, head.len)?;
                Ok(begun)
            }
            Ok(Status::Partial) => Ok(part_begun(part, bytes.len())),
            Err(Error::TooManyHeaders) => Ok(refused(400)),
            Err(_) => Ok(refused(400)),
        }
    }

    /// What the bytes of a connection are, whose head was parsed before: the same as without it.
    #[tactic(auto, using(crate::proofs::HeadLemmas::sees_same))]
    pub fn request_after(&self, head: &Head, bytes: &[u8]) -> Result<Seen, Memory>
        ensures value { IfOk result (λ seen. seen ≡ seen_after head.now bytes.now) }
        ensures same { IfOk result (λ seen. (before more : List ℕ) → Begins before (Begun.Head head.now) → bytes.now ≡ before ++ more → Sees bytes.now seen) }
    {
        let seen = self.seen_after(head, bytes)?;
        Ok(seen)
    }

    #[tactic(auto, unfolding(crate::specs::Front::seen_after))]
    fn seen_after(&self, head: &Head, bytes: &[u8]) -> Result<Seen, Memory>
        ensures { IfOk result (λ seen. seen ≡ seen_after head.now bytes.now) }
    {
        if bytes.len() < head.start {
            return Ok(Seen::Wait);
        }
        let body = &bytes[head.start..];
        if body.len() < head.length {
            return Ok(Seen::Wait);
        }
        self.seen_with(head, &body[..head.length])
    }

    // A whole request, by its head and its body.
    fn seen_with(&self, head: &Head, body: &[u8]) -> Result<Seen, Memory>
        ensures { IfOk result (λ seen. seen ≡ seen_with head.now.own head.now body.now) }
    {
        if let Some(own) = head.own {
            return Ok(Seen::Own(own));
        }
        let word = head.word.as_str();
        let found = asked(self.alloc, head.goal, word, head.session, body)?;
        Ok(seen_of(head.goal, found))
    }

    // What a whole head is, by its parts.
    #[tactic(auto, unfolding(crate::specs::Front::begun_of))]
    fn begun_of(
        &self,
        bytes: &[u8],
        method: &[u8],
        target: &[u8],
        minor: u8,
        fields: &[HeaderSpan],
        start: usize,
    ) -> Result<Begun, Memory>
        requires within { All (IsHeaderWithin (length bytes.now)) fields.now }
        requires text { IsUtf8 target.now }
        ensures { IfOk result (λ begun. begun ≡ begun_of method.now target.now minor (map (header_bytes bytes.now) fields.now) start) }
    {
        if has_transfer_coding(bytes, fields) {
            return Ok(refused(501));
        }
        if is_bad_host(bytes, fields, minor) {
            return Ok(refused(400));
        }
        if is_foreign(bytes, fields, method) {
            return Ok(refused(403));
        }
        let Ok(target) = from_utf8(target) else {
            unreachable!();
        };
        self.begun_with(method, path_of(target), start, body_length(bytes, fields))
    }

    #[tactic(auto, unfolding(crate::specs::Front::begun_with))]
    fn begun_with(
        &self,
        method: &[u8],
        path: &str,
        start: usize,
        told: Option<u64>,
    ) -> Result<Begun, Memory>
        ensures { IfOk result (λ begun. begun ≡ begun_with method.now path.now start told) }
    {
        match told {
            None => Ok(refused(400)),
            Some(length) if length > MOST_BODY as u64 => Ok(refused(413)),
            Some(length) => self.begun_at(method, path, start, length as usize),
        }
    }

    #[tactic(auto, unfolding(crate::specs::Front::begun_at, crate::specs::Routes::goal_at))]
    fn begun_at(
        &self,
        method: &[u8],
        path: &str,
        start: usize,
        length: usize,
    ) -> Result<Begun, Memory>
        ensures { IfOk result (λ begun. begun ≡ begun_at method.now path.now start length) }
    {
        match goal_at(&self.router, path) {
            Some(goal) => begun_by(self.alloc, goal, method, path.as_bytes(), start, length),
            None => Ok(refused(404)),
        }
    }
}

// The bytes in which the head must end.
#[tactic(auto, using(crate::proofs::HeadLemmas::short_part))]
fn head_part(bytes: &[u8]) -> &[u8]
    ensures { result.now ≡ head_part bytes.now }
{
    if bytes.len() > MOST_HEAD {
        &bytes[..MOST_HEAD]
    } else {
        bytes
    }
}

// Where no whole head has come: too many lines of it make too many fields, however they go on.
fn part_begun(part: &[u8], come: usize) -> Begun
    ensures many { MOST_FIELDS + 2 ≤ newlines (after_blank part.now) → result ≡ refused 400 }
    ensures few { newlines (after_blank part.now) < MOST_FIELDS + 2 → result ≡ half_begun come }
{
    if newlines(after_blank(part)) < MOST_FIELDS + 2 {
        half_begun(come)
    } else {
        refused(400)
    }
}

fn half_begun(come: usize) -> Begun
    ensures { result ≡ half_begun come }
{
    if come < MOST_HEAD {
        Begun::Wait
    } else {
        refused(413)
    }
}

fn refused(status: u16) -> Begun
    ensures { result ≡ refused status }
{
    Begun::Refuse {
        status,
        allow: None,
    }
}

#[tactic(auto, unfolding(crate::specs::Front::begun_by))]
fn begun_by(
    alloc: Global,
    goal: Goal,
    method: &[u8],
    path: &[u8],
    start: usize,
    length: usize,
) -> Result<Begun, Memory>
    ensures { IfOk result (λ begun. begun ≡ begun_by goal method.now path.now start length) }
{
    let verb = goal.verb();
    if method == verb.name().as_bytes() {
        begun_for(alloc, goal, path, start, length)
    } else {
        Ok(Begun::Refuse {
            status: 405,
            allow: Some(verb),
        })
    }
}

#[tactic(auto, unfolding(crate::specs::Front::begun_for))]
fn begun_for(
    alloc: Global,
    goal: Goal,
    path: &[u8],
    start: usize,
    length: usize,
) -> Result<Begun, Memory>
    ensures { IfOk result (λ begun. begun ≡ begun_for goal path.now start length) }
{
    match session_in(alloc, goal, segment_of(path))? {
        Some(session) => begun_in(alloc, goal, path, session, start, length),
        None => Ok(refused(400)),
    }
}

#[tactic(auto, unfolding(crate::specs::Front::begun_in))]
fn begun_in(
    alloc: Global,
    goal: Goal,
    path: &[u8],
    session: u32,
    start: usize,
    length: usize,
) -> Result<Begun, Memory>
    ensures { IfOk result (λ begun. begun ≡ begun_in goal path.now session start length) }
{
    let Some(own) = own_in(alloc, goal, file_segment(path))? else {
        return Ok(refused(404));
    };
    Ok(Begun::Head(Head {
        goal,
        word: word_in(alloc, goal, segment_of(path))?,
        session,
        own,
        start,
        length,
    }))
}

// What the program answers by itself at a path for this; `None` where it is for a file that isn't there.
fn own_in(alloc: Global, goal: Goal, segment: &[u8]) -> Result<Option<Option<Own>>, Memory>
    ensures { IfOk result (λ own. own ≡ own_in goal segment.now) }
{
    match goal {
        Goal::Editor => Ok(Some(Some(Own::Way))),
        Goal::EditorFile => match file_named(decoded(alloc, segment)?.as_bytes()) {
            Some(file) => Ok(Some(Some(Own::File(file)))),
            None => Ok(None),
        },
        _ => Ok(Some(None)),
    }
}

fn word_in(alloc: Global, goal: Goal, segment: &[u8]) -> Result<Text8, Memory>
    ensures { IfOk result (λ word. word ≡ word_in goal segment.now) }
{
    match goal {
        Goal::Article(_) => decoded(alloc, segment),
        _ => Ok(Text8::new(alloc)),
    }
}

fn session_in(alloc: Global, goal: Goal, segment: &[u8]) -> Result<Option<u32>, Memory>
    ensures { IfOk result (λ session. session ≡ session_in goal segment.now) }
{
    match goal {
        Goal::Session(_) => Ok(short_number(decoded(alloc, segment)?.as_bytes())),
        _ => Ok(Some(0)),
    }
}

fn seen_of(goal: Goal, found: Asked) -> Seen
    ensures { result ≡ seen_of goal found }
{
    match found {
        None => Seen::Refuse {
            status: 400,
            allow: None,
            bad_line: matches!(goal, Goal::Line),
        },
        Some((request, then)) => Seen::Ask(request, then),
    }
}
