//! The pages of the wiki as HTML.
#![tactic(auto)]

mod article;
mod html;
mod index;
mod session;

ghost use Rattle.std.specs.Prelude.{◌≡◌, ◌++◌, IfOk, OnOk};
ghost use Rattle.pages.specs.Pages.{page_of, refusal_body, refusal_page};
ghost use Rattle.std.specs.String.{string_bytes};

use article::article_page;
use html::{closed, opened, push_escaped};
use index::index_page;
use session::session_page;
use std::alloc::Global;
use wiki_base::{Memory, Text8};
use wiki_talk::Reply;

// About the bytes of a page that tells a refusal.
const ROOM: usize = 256;

/// The page of a reply: the index of a done `words`, the article of a done `read`, the session of a done `menu`, whose
/// number is `session`. `None` exactly for any other reply.
pub fn page(alloc: Global, session: u32, reply: &Reply) -> Result<Option<Text8>, Memory>
    ensures { IfOk result (λ page. page ≡ page_of session reply.now) }
{
    match reply {
        Reply::Words { words } => Ok(Some(index_page(alloc, words.as_slice())?)),
        Reply::Read {
            form,
            sentences,
            ..
        } => Ok(Some(article_page(alloc, form.as_str(), sentences.as_slice())?)),
        Reply::Menu { menu, shown, .. } => {
            Ok(Some(session_page(alloc, session, shown.as_str(), menu)?))
        }
        _ => Ok(None),
    }
}

/// The page that tells a refusal by its number and name, or a status of HTTP by its number and phrase.
#[tactic(auto, unfolding(crate::specs::Html::framed))]
pub fn refusal_page(alloc: Global, number: u32, name: &str) -> Result<Text8, Memory>
    ensures { IfOk result (λ page. page ≡ refusal_page number name.now) }
{
    let mut page = opened(alloc, "Refused", ROOM)?;
    push_refusal(&mut page, number, name)?;
    closed(page)
}

fn push_refusal(page: &mut String, number: u32, name: &str) -> Result<(), Memory>
    ensures { OnOk result (string_bytes page.new ≡ string_bytes page.old ++ refusal_body number name.now) }
{
    write!(page, "<p>{number} ")?;
    push_escaped(page, name)?;
    Ok(page.push_str("</p>")?)
}
