// What the bytes of a connection come to, as plain data, so that a test over many of them is proved cheaply.
use http_front::{Begun, Front, Own, Seen, Then, Verb};
use std::alloc::Global;
use std::test::Fail;
use wiki_base::Memory;
use wiki_talk::{ArticleRequest, Request, SessionRequest, WikiRequest};

// What a request asks for stands for itself where it is whole.
pub(crate) const ASKED: u16 = 200;

// So does one that the program answers by itself.
pub(crate) const OWN: u16 = 1;

pub(crate) const WAITS: u16 = 0;

// The status with which the bytes of a connection are refused, if they are.
fn status_by(front: &Front, bytes: &[u8]) -> Result<u16, Fail> {
    match front.request_of(bytes)? {
        Seen::Wait => Ok(WAITS),
        Seen::Refuse { status, .. } => Ok(status),
        Seen::Own(_) => Ok(OWN),
        Seen::Ask(_, _) => Ok(ASKED),
    }
}

// The same, by a front of its own.
pub(crate) fn status(alloc: Global, bytes: &[u8]) -> Result<u16, Fail> {
    let front = Front::new(alloc)?;
    status_by(&front, bytes)
}

// The status of a request by its first words and its fields.
pub(crate) fn status_at(
    alloc: Global,
    verb: &str,
    target: &str,
    fields: &str,
) -> Result<u16, Fail> {
    let request = format!(in alloc; "{verb} {target} HTTP/1.0\r\n{fields}\r\n")?;
    status(alloc, request.as_bytes())
}

// The first place at which a request that is cut there isn't waited for.
pub(crate) fn waited_for(alloc: Global, request: &[u8]) -> Result<usize, Fail> {
    let front = Front::new(alloc)?;
    for come in 0..request.len() {
        if status_by(&front, &request[..come])? != WAITS {
            return Ok(come);
        }
    }
    Ok(request.len())
}

// What the bytes of a connection are, in words.
pub(crate) fn told(alloc: Global, bytes: &[u8]) -> Result<String, Fail> {
    let front = Front::new(alloc)?;
    let seen = front.request_of(bytes)?;
    Ok(in_words(alloc, &seen)?)
}

// The same, where the head of these bytes was read before.
pub(crate) fn told_after(alloc: Global, head: &[u8], bytes: &[u8]) -> Result<String, Fail> {
    let front = Front::new(alloc)?;
    let Begun::Head(head) = front.head_of(head)? else {
        return Err(Fail::new("a head"));
    };
    let seen = front.request_after(&head, bytes)?;
    Ok(in_words(alloc, &seen)?)
}

fn in_words(alloc: Global, seen: &Seen) -> Result<String, Memory> {
    match seen {
        Seen::Own(Own::File(file)) => Ok(String::from_str(alloc, file.name())?),
        Seen::Refuse {
            status,
            allow,
            bad_line,
        } => refusal(alloc, *status, *allow == Some(Verb::Post), *bad_line),
        Seen::Ask(request, Then::Go(path)) => asked(alloc, request, path.as_str()),
        _ => Ok(String::from_str(alloc, "something else")?),
    }
}

fn refusal(alloc: Global, status: u16, is_post: bool, is_line: bool) -> Result<String, Memory> {
    let allow = if is_post { " but POST" } else { "" };
    let why = if is_line { " for its line" } else { "" };
    Ok(format!(in alloc; "{status}{allow}{why}")?)
}

// A request that some tests ask, and the path to which its response leads.
fn asked(alloc: Global, request: &Request, path: &str) -> Result<String, Memory> {
    match request {
        Request::OnSession {
            session,
            asked: SessionRequest::Type { text },
        } => {
            let text = text.as_str();
            Ok(format!(in alloc; "put '{text}' in {session}, and go to {path}")?)
        }
        Request::OnWiki(WikiRequest::Word { forms, .. }) => {
            let count = forms.as_slice().len();
            Ok(format!(in alloc; "a word of {count} forms, and go to {path}")?)
        }
        Request::OnArticle {
            article,
            asked: ArticleRequest::Add { at: None, text },
        } => added(alloc, article.as_str(), text.as_str(), path),
        _ => Ok(String::from_str(alloc, "something else is asked")?),
    }
}

fn added(alloc: Global, article: &str, text: &str, path: &str) -> Result<String, Memory> {
    Ok(format!(in alloc; "add '{text}' to {article}, and go to {path}")?)
}
