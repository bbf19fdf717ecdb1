// client/open.js. tools/client --write wrote this.
ghost use Rattle.std.specs.Prelude.{◌≡◌};
ghost use Rattle.editor_files.specs.OpenJs.{open_js};

#[tactic(auto, unfolding(crate::specs::OpenJs::open_js))]
pub(crate) fn text() -> &'static str
    ensures { result.now ≡ open_js }
{
    "// The field that opens any word's article.\nimport { load, lookUp, nameOf, wordOf } from './lexicon.js';\nimport { address, attempt, complain, fill, make, quoted, visit } from './page.js';\n\nconst MOST = 12;\n\nexport function setUpOpen() {\n    const [input, list] = [document.getElementById('open-word'), document.getElementById('open-list')];\n    const suggest = () => fill(list, lookUp(input.value, MOST).map((word) => make('option', { value: nameOf(word) }, word.kind)));\n    input.addEventListener('focus', () => attempt(load));\n    input.addEventListener('input', suggest);\n    document.getElementById('open').addEventListener('submit', (event) => {\n        event.preventDefault();\n        attempt(() => openTyped(input, input.value.trim()));\n    });\n    document.addEventListener('keydown', (event) => {\n        const isFree = !document.activeElement || !document.activeElement.matches('input, textarea, select');\n        if (event.key === '/' && isFree && !event.ctrlKey && !event.metaKey && !event.altKey) {\n            event.preventDefault();\n            input.focus();\n        }\n    });\n}\n\n// The word with the form that was typed, or else the first one that fits.\nasync function openTyped(input, typed) {\n    if (typed === '') { return; }\n    await load();\n    const found = wordOf(typed) || lookUp(typed, MOST)[0];\n    if (found) {\n        input.value = '';\n        input.blur();\n        visit(address(nameOf(found)));\n    } else {\n        complain('No word has the form ', quoted(typed), '. ', make('a', { href: address(typed) }, 'Add it'), '.');\n    }\n}\n"
}
