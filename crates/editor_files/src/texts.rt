// Each file's text by its name. tools/client --write wrote this.
ghost use Rattle.std.specs.Prelude.{◌≡◌};
ghost use Rattle.editor_files.specs.Texts.{text_of};

use crate::{
    api_js, app_css, app_js, article_js, ask_js, changes_js, commit_js, editor_js, index_html,
    lexicon_js, map_js, mapdrawing_js, mapfacts_js, mapshapes_js, menu_js, open_js, page_js,
    refusals_js, sentence_js, usage_js, watch_js, wordform_js, words_js,
};
use editor_names::EditorFile;

/// The text of a file.
pub fn text_of(file: EditorFile) -> &'static str
    ensures { result.now ≡ text_of file }
{
    match file {
        EditorFile::ApiJs => api_js::text(),
        EditorFile::AppCss => app_css::text(),
        EditorFile::AppJs => app_js::text(),
        EditorFile::ArticleJs => article_js::text(),
        EditorFile::AskJs => ask_js::text(),
        EditorFile::ChangesJs => changes_js::text(),
        EditorFile::CommitJs => commit_js::text(),
        EditorFile::EditorJs => editor_js::text(),
        EditorFile::IndexHtml => index_html::text(),
        EditorFile::LexiconJs => lexicon_js::text(),
        EditorFile::MapJs => map_js::text(),
        EditorFile::MapdrawingJs => mapdrawing_js::text(),
        EditorFile::MapfactsJs => mapfacts_js::text(),
        EditorFile::MapshapesJs => mapshapes_js::text(),
        EditorFile::MenuJs => menu_js::text(),
        EditorFile::OpenJs => open_js::text(),
        EditorFile::PageJs => page_js::text(),
        EditorFile::RefusalsJs => refusals_js::text(),
        EditorFile::SentenceJs => sentence_js::text(),
        EditorFile::UsageJs => usage_js::text(),
        EditorFile::WatchJs => watch_js::text(),
        EditorFile::WordformJs => wordform_js::text(),
        EditorFile::WordsJs => words_js::text(),
    }
}
