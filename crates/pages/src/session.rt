// The page of a session.
ghost use Rattle.std.specs.Prelude.{◌≡◌, ◌++◌, IfOk, OnOk};
ghost use Rattle.std.specs.List.{flat_map};
ghost use Rattle.std.specs.String.{string_bytes};
ghost use Rattle.pages.specs.Pages.{token_item, offered, session_forms, session_body, session_page};

use crate::html::{closed, opened, push_escaped};
use std::alloc::Global;
use wiki_base::{Memory, Text8};
use wiki_talk::MenuView;

// About the bytes of a page with a menu of a usual size.
const ROOM: usize = 4096;

/// A session's tokens and what may follow them.
#[tactic(auto, unfolding(crate::specs::Html::framed))]
pub fn session_page(
    alloc: Global,
    session: u32,
    shown: &str,
    menu: &MenuView,
) -> Result<Text8, Memory>
    ensures { IfOk result (λ page. page ≡ session_page session shown.now menu.now) }
{
    let mut page = opened(alloc, "Editor", ROOM)?;
    push_body(&mut page, session, shown, menu)?;
    closed(page)
}

fn push_body(page: &mut String, session: u32, shown: &str, menu: &MenuView) -> Result<(), Memory>
    ensures { OnOk result (string_bytes page.new ≡ string_bytes page.old ++ session_body session shown.now menu.now) }
{
    page.push_str("<p>")?;
    push_escaped(page, shown)?;
    page.push_str("</p><ul>")?;
    push_offered(page, menu)?;
    page.push_str("</ul>")?;
    push_forms(page, session)
}

#[tactic(auto, unfolding(crate::specs::Pages::session_forms))]
fn push_forms(page: &mut String, session: u32) -> Result<(), Memory>
    ensures { OnOk result (string_bytes page.new ≡ string_bytes page.old ++ session_forms session) }
{
    Ok(write!(
        page,
        "<form method=\"post\" action=\"/session/{session}/type\"><input name=\"token\"><button>Type</button></form><form method=\"post\" action=\"/session/{session}/back\"><button>Back</button></form><form method=\"post\" action=\"/session/{session}/commit\"><button>Commit</button></form>"
    )?)
}

fn push_offered(page: &mut String, menu: &MenuView) -> Result<(), Memory>
    ensures { OnOk result (string_bytes page.new ≡ string_bytes page.old ++ offered menu.now) }
{
    push_tokens(page, menu.function.as_slice())?;
    push_tokens(page, menu.name.as_slice())?;
    push_tokens(page, menu.noun.as_slice())?;
    push_tokens(page, menu.of.as_slice())?;
    push_tokens(page, menu.verb.as_slice())?;
    push_tokens(page, menu.adjective.as_slice())
}

fn push_tokens(page: &mut String, tokens: &[Text8]) -> Result<(), Memory>
    ensures { OnOk result (string_bytes page.new ≡ string_bytes page.old ++ flat_map token_item tokens.now) }
{
    for token in tokens {
        push_token(page, token.as_str())?;
    }
    Ok(())
}

fn push_token(page: &mut String, token: &str) -> Result<(), Memory>
    ensures { OnOk result (string_bytes page.new ≡ string_bytes page.old ++ token_item token.now) }
{
    page.push_str("<li>")?;
    push_escaped(page, token)?;
    Ok(page.push_str("</li>")?)
}
