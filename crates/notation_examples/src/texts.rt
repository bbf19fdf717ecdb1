// Texts of the notation for the tests.

// Grammars without faults, each with the text that is printed for it.
pub static GRAMMARS: [(&str, &str); 24] = [
    ("text --> [a].", "text-->[a]."),
    ("text~~>[.][?] .", "text~~>[.][?]."),
    (
        "% x\n text % y\n -->\t[a%b] % z\r\n . % end",
        "text-->[a%b].",
    ),
    (
        "{ statement } text --> s [\u{e9}]. {class}v --> $ noun.",
        "{statement}text-->s[\u{e9}].{class}v-->$noun.",
    ),
    (
        "text --> [a]. text --> a. a --> [b].",
        "text-->[a].text-->a.a-->[b].",
    ),
    ("text --> a.b --> [c].", "text-->a.b-->[c]."),
    ("text --> // /< +x [a].", "text-->///<+x[a]."),
    ("text --> ///<+x[a].", "text-->///<+x[a]."),
    ("text --> >x y.", "text-->>x y."),
    ("text --> >> x [a].", "text-->>>x[a]."),
    ("text --><+x-y-z[a].", "text--><+x-y-z[a]."),
    ("text --> [a] > b.", "text-->[a]>b."),
    ("text --> a b.", "text-->a b."),
    ("text --> a text. a --> [x].", "text-->a text.a-->[x]."),
    (
        "text --> name. name --> $name.",
        "text-->name.name-->$name.",
    ),
    (
        "feature k: q, p. text(k: p) --> [a].",
        "feature k:q,p.text(k:p)-->[a].",
    ),
    (
        "text(k: p) --> [a]. feature k: q, p.",
        "feature k:q,p.text(k:p)-->[a].",
    ),
    (
        "feature k: p, q. feature j: q, p. text --> a(j: Y, k: Y) [b].",
        "feature k:p,q.feature j:q,p.text-->a(k:A,j:A)[b].",
    ),
    (
        "feature id: position. text --> #X a(id: X) [b].",
        "feature id:position.text-->#A a(id:A)[b].",
    ),
    (
        "feature w: word. feature num: pl, sg. text --> $noun(w: B, num: C) a(w: A).",
        "feature num:pl,sg.feature w:word.text-->$noun(num:A,w:B)a(w:C).",
    ),
    (
        "feature k: p. feature j: p. text --> < +x(j: X, k: ?Z) -y(j: X) [b].",
        "feature k:p.feature j:p.text--><+x(k:?A,j:B)-y(j:B)[b].",
    ),
    (
        "feature k: p. text --> < +x(k: ?X) [a] b(k: X).",
        "feature k:p.text--><+x(k:?A)[a]b(k:A).",
    ),
    (
        "feature k: p. b(k: Long_name9) --> [c]. text --> [a].",
        "feature k:p.b(k:A)-->[c].text-->[a].",
    ),
    (
        "feature k: p, q. feature id: position. text --> m n r [e]. m --> [m] #P > x(k: p, id: P). n --> [n] #P > x(k: q, id: P). r --> < +x(k: K, id: ?I) [r].",
        "feature k:p,q.feature id:position.text-->m n r[e].m-->[m]#A>x(k:p,id:A).n-->[n]#A>x(k:q,id:A).r--><+x(k:A,id:?B)[r].",
    ),
];
