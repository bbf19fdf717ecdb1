// What an event comes to.
use http_front::Then;
use wiki_base::Text8;
use wiki_talk::Request;

/// What an event comes to.
#[derive(Drop)]
pub enum Turn {
    /// Nothing is answered.
    Wait,
    /// The program's own response on a connection, for which the wiki isn't asked.
    Own(u32, Text8),
    /// A request to the wiki, and the response that its reply has when it is done.
    Ask(u32, Request, Then),
}
