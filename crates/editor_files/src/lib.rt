//! The texts of the files of the editor page. tools/client --write wrote this crate from the files of client/.
#![tactic(auto)]

mod api_js;
mod app_css;
mod app_js;
mod article_js;
mod ask_js;
mod changes_js;
mod commit_js;
mod editor_js;
mod index_html;
mod lexicon_js;
mod map_js;
mod mapdrawing_js;
mod mapfacts_js;
mod mapshapes_js;
mod menu_js;
mod open_js;
mod page_js;
mod refusals_js;
mod sentence_js;
mod texts;
mod usage_js;
mod watch_js;
mod wordform_js;
mod words_js;

pub use texts::text_of;
