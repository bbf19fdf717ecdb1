// The names of the files. tools/client --write wrote this.
ghost use Rattle.std.specs.Prelude.{◌≡◌};
ghost use Rattle.editor_names.specs.Names.{files, file_named};

/// A file of the editor page.
#[derive(Clone, Copy, Debug, PartialEq, Eq)]
pub enum EditorFile {
    ApiJs,
    AppCss,
    AppJs,
    ArticleJs,
    AskJs,
    ChangesJs,
    CommitJs,
    EditorJs,
    IndexHtml,
    LexiconJs,
    MapJs,
    MapdrawingJs,
    MapfactsJs,
    MapshapesJs,
    MenuJs,
    OpenJs,
    PageJs,
    RefusalsJs,
    SentenceJs,
    UsageJs,
    WatchJs,
    WordformJs,
    WordsJs,
}

impl EditorFile {
    ghost use Rattle.editor_names.specs.Names.{name_of, content_type};

    /// The name of the file, behind `/editor/` in its path.
    pub fn name(self) -> &'static str
        ensures { result.now ≡ name_of self }
    {
        match self {
            EditorFile::ApiJs => "api.js",
            EditorFile::AppCss => "app.css",
            EditorFile::AppJs => "app.js",
            EditorFile::ArticleJs => "article.js",
            EditorFile::AskJs => "ask.js",
            EditorFile::ChangesJs => "changes.js",
            EditorFile::CommitJs => "commit.js",
            EditorFile::EditorJs => "editor.js",
            EditorFile::IndexHtml => "index.html",
            EditorFile::LexiconJs => "lexicon.js",
            EditorFile::MapJs => "map.js",
            EditorFile::MapdrawingJs => "mapdrawing.js",
            EditorFile::MapfactsJs => "mapfacts.js",
            EditorFile::MapshapesJs => "mapshapes.js",
            EditorFile::MenuJs => "menu.js",
            EditorFile::OpenJs => "open.js",
            EditorFile::PageJs => "page.js",
            EditorFile::RefusalsJs => "refusals.js",
            EditorFile::SentenceJs => "sentence.js",
            EditorFile::UsageJs => "usage.js",
            EditorFile::WatchJs => "watch.js",
            EditorFile::WordformJs => "wordform.js",
            EditorFile::WordsJs => "words.js",
        }
    }

    /// What the file is, as `Content-Type` tells it.
    pub fn content_type(self) -> &'static str
        ensures { result.now ≡ content_type self }
    {
        match self {
            EditorFile::ApiJs => "text/javascript; charset=utf-8",
            EditorFile::AppCss => "text/css; charset=utf-8",
            EditorFile::AppJs => "text/javascript; charset=utf-8",
            EditorFile::ArticleJs => "text/javascript; charset=utf-8",
            EditorFile::AskJs => "text/javascript; charset=utf-8",
            EditorFile::ChangesJs => "text/javascript; charset=utf-8",
            EditorFile::CommitJs => "text/javascript; charset=utf-8",
            EditorFile::EditorJs => "text/javascript; charset=utf-8",
            EditorFile::IndexHtml => "text/html; charset=utf-8",
            EditorFile::LexiconJs => "text/javascript; charset=utf-8",
            EditorFile::MapJs => "text/javascript; charset=utf-8",
            EditorFile::MapdrawingJs => "text/javascript; charset=utf-8",
            EditorFile::MapfactsJs => "text/javascript; charset=utf-8",
            EditorFile::MapshapesJs => "text/javascript; charset=utf-8",
            EditorFile::MenuJs => "text/javascript; charset=utf-8",
            EditorFile::OpenJs => "text/javascript; charset=utf-8",
            EditorFile::PageJs => "text/javascript; charset=utf-8",
            EditorFile::RefusalsJs => "text/javascript; charset=utf-8",
            EditorFile::SentenceJs => "text/javascript; charset=utf-8",
            EditorFile::UsageJs => "text/javascript; charset=utf-8",
            EditorFile::WatchJs => "text/javascript; charset=utf-8",
            EditorFile::WordformJs => "text/javascript; charset=utf-8",
            EditorFile::WordsJs => "text/javascript; charset=utf-8",
        }
    }
}

// All files.
fn files() -> &'static [EditorFile]
    ensures { result.now ≡ files }
{
    &[
        EditorFile::ApiJs,
        EditorFile::AppCss,
        EditorFile::AppJs,
        EditorFile::ArticleJs,
        EditorFile::AskJs,
        EditorFile::ChangesJs,
        EditorFile::CommitJs,
        EditorFile::EditorJs,
        EditorFile::IndexHtml,
        EditorFile::LexiconJs,
        EditorFile::MapJs,
        EditorFile::MapdrawingJs,
        EditorFile::MapfactsJs,
        EditorFile::MapshapesJs,
        EditorFile::MenuJs,
        EditorFile::OpenJs,
        EditorFile::PageJs,
        EditorFile::RefusalsJs,
        EditorFile::SentenceJs,
        EditorFile::UsageJs,
        EditorFile::WatchJs,
        EditorFile::WordformJs,
        EditorFile::WordsJs,
    ]
}

/// The file that has this name.
#[tactic(auto, unfolding(crate::specs::Names::file_named))]
pub fn file_named(name: &[u8]) -> Option<EditorFile>
    ensures { result ≡ file_named name.now }
{
    let all = files();
    for file in all {
        if name == file.name().as_bytes() {
            return Some(*file);
        }
    }
    None
}
