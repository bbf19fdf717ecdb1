// client/index.html. tools/client --write wrote this.
ghost use Rattle.std.specs.Prelude.{◌≡◌};
ghost use Rattle.editor_files.specs.IndexHtml.{index_html};

#[tactic(auto, unfolding(crate::specs::IndexHtml::index_html))]
pub(crate) fn text() -> &'static str
    ensures { result.now ≡ index_html }
{
    "<!DOCTYPE html>\n<html lang=\"en\">\n<head>\n<meta charset=\"utf-8\">\n<meta http-equiv=\"Content-Security-Policy\" content=\"default-src 'self'; base-uri 'none'; form-action 'self'\">\n<meta name=\"viewport\" content=\"width=device-width, initial-scale=1\">\n<meta name=\"color-scheme\" content=\"light dark\">\n<title>AceWiki</title>\n<link rel=\"stylesheet\" href=\"app.css\">\n<script type=\"module\" src=\"app.js\"></script>\n</head>\n<body>\n<button type=\"button\" id=\"skip\" class=\"skip\">To the page's content</button>\n<header class=\"top\">\n<a class=\"home\" href=\"#/\">AceWiki</a>\n<nav aria-label=\"Pages\">\n<a href=\"#/\">Words</a>\n<a href=\"#/ask\">Ask</a>\n<a href=\"#/map\">Map</a>\n</nav>\n<form id=\"open\" class=\"open\" role=\"search\" autocomplete=\"off\">\n<label for=\"open-word\">Open an article</label>\n<input id=\"open-word\" type=\"text\" list=\"open-list\" dir=\"auto\" spellcheck=\"false\" autocapitalize=\"off\" placeholder=\"Open a word (key /)\">\n<datalist id=\"open-list\"></datalist>\n</form>\n</header>\n<div id=\"waiting\" class=\"waiting\" role=\"status\" hidden></div>\n<div id=\"notices\" class=\"notices\" aria-live=\"polite\" aria-label=\"Messages\"></div>\n<main id=\"main\" tabindex=\"-1\">\n<noscript><p>This page is a script of its own, which has to be allowed. The plain pages need none: <a href=\"/\">the index</a>.</p></noscript>\n</main>\n</body>\n</html>\n"
}
