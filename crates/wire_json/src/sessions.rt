// The requests that speak of sessions.
ghost use Rattle.std.specs.Prelude.{◌≡◌, IfOk};
ghost use Rattle.serde_json.specs.View.{view};
ghost use Rattle.wire_json.specs.Requests.{on_session_in, type_in};

use crate::read::text_of;
use crate::sentences::number_at;
use serde_json::Value;
use std::alloc::Global;
use wiki_base::{Memory, Text8};
use wiki_talk::{Request, SessionRequest};

#[tactic(auto, unfolding(crate::specs::Requests::type_in))]
pub(crate) fn type_from(alloc: Global, value: &Value) -> Result<Option<Request>, Memory>
    ensures { IfOk result (λ request. request ≡ type_in (view value.now)) }
{
    let Some(session) = number_at(value, "session") else {
        return Ok(None);
    };
    match text_of(value, "text") {
        Some(text) => Ok(Some(Request::OnSession {
            session,
            asked: SessionRequest::Type {
                text: Text8::from_str(alloc, text)?,
            },
        })),
        None => Ok(None),
    }
}

// What else is asked of a session.
pub(crate) fn on_session_from(value: &Value, asked: SessionRequest) -> Option<Request>
    ensures { result ≡ on_session_in asked (view value.now) }
{
    match number_at(value, "session") {
        Some(session) => Some(Request::OnSession { session, asked }),
        None => None,
    }
}
