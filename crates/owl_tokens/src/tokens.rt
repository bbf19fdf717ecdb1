// Tokens, and which comes next.
ghost use Rattle.std.specs.Prelude.{◌≡◌, ◌≤◌, ◌<◌, ◌+◌, length, drop, false, IfSome, IsTrue, ◌↔◌};
ghost use Rattle.owl_tokens.specs.Shown.{shown};
ghost use Rattle.owl_tokens.specs.Tokens.{IsWithin, is_space, is_word_byte, is_iri_byte, gap_end, run, closing_quote, begins_with_greater, sign, iri_at, quoted_at, word_at, token_of, token_at, next};

/// What a token is.
#[derive(Clone, Copy, Debug, PartialEq, Eq)]
pub enum TokenKind {
    /// `(`
    OpenParen,
    /// `)`
    CloseParen,
    /// `=`
    Equals,
    /// What stands between `<` and `>`.
    Iri,
    /// What stands between quotes.
    Quoted,
    /// A name or a keyword, or a word of an annotation.
    Word,
}

/// A token.
#[derive(Clone, Copy, Debug, Drop)]
pub struct Token<'t> {
    pub kind: TokenKind,
    /// What is between `<` and `>` or between quotes, or the word. Of a sign none.
    pub text: &'t [u8],
    /// The byte at which it begins.
    pub at: usize,
    /// The byte after it.
    pub end: usize,
}

/// What stands next in a text.
#[derive(Clone, Copy, Debug, Drop)]
pub enum Next<'t> {
    Found(Token<'t>),
    /// The text ends at this byte.
    Ends(usize),
    /// This byte begins no token.
    Broken(usize),
}

fn is_space(byte: u8) -> bool
    ensures { result ≡ is_space byte }
{
    byte == b' ' || byte == b'\t' || byte == b'\r' || byte == b'\n'
}

fn is_word_byte(byte: u8) -> bool
    ensures { result ≡ is_word_byte byte }
{
    !(is_space(byte)
        || byte == b'('
        || byte == b')'
        || byte == b'='
        || byte == b'<'
        || byte == b'>'
        || byte == b'"'
        || byte == b'#')
}

fn is_iri_byte(byte: u8) -> bool
    ensures { result ≡ is_iri_byte byte }
{
    !(is_space(byte) || byte == b'>')
}

/// The place behind white space and comments.
fn gap_end(text: &[u8], from: usize) -> usize
    requires { from ≤ length text.now }
    ensures place { result ≡ gap_end from false (drop from text.now) }
    ensures within { result ≤ length text.now }
    ensures forward { from ≤ result }
{
    let mut in_comment = false;
    for at in from..text.len() {
        let byte = text[at];
        if in_comment {
            in_comment = byte != b'\n';
        } else if byte == b'#' {
            in_comment = true;
        } else if !is_space(byte) {
            return at;
        }
    }
    text.len()
}

fn word_length(bytes: &[u8]) -> usize
    ensures length { result ≡ run is_word_byte bytes.now }
    ensures within { result ≤ length bytes.now }
{
    for n in 0..bytes.len() {
        if !is_word_byte(bytes[n]) {
            return n;
        }
    }
    bytes.len()
}

fn iri_length(bytes: &[u8]) -> usize
    ensures length { result ≡ run is_iri_byte bytes.now }
    ensures within { result ≤ length bytes.now }
{
    for n in 0..bytes.len() {
        if !is_iri_byte(bytes[n]) {
            return n;
        }
    }
    bytes.len()
}

fn closing_quote(bytes: &[u8]) -> Option<usize>
    ensures place { result ≡ closing_quote 0 false bytes.now }
    ensures within { IfSome result (λ n. n < length bytes.now) }
{
    let mut after_backslash = false;
    for n in 0..bytes.len() {
        let byte = bytes[n];
        if after_backslash {
            if byte != b'"' && byte != b'\\' {
                return None;
            }
            after_backslash = false;
        } else if byte == b'"' {
            return Some(n);
        } else {
            after_backslash = byte == b'\\';
        }
    }
    None
}

fn sign<'t>(kind: TokenKind, text: &'t [u8], at: usize) -> Next<'t>
    requires { at < length text.now }
    ensures { shown result ≡ sign kind at }
{
    Next::Found(Token {
        kind,
        text: &text[at..at],
        at,
        end: at + 1,
    })
}

/// What `<` at a place begins.
fn iri_at(text: &[u8], at: usize) -> Next<'_>
    requires { at < length text.now }
    ensures { shown result ≡ iri_at at (drop (at + 1) text.now) }
{
    let rest = &text[at + 1..];
    let n = iri_length(rest);
    if n < rest.len() && rest[n] == b'>' {
        Next::Found(Token {
            kind: TokenKind::Iri,
            text: &rest[..n],
            at,
            end: at + n + 2,
        })
    } else {
        Next::Broken(at)
    }
}

/// What a quote at a place begins.
fn quoted_at(text: &[u8], at: usize) -> Next<'_>
    requires { at < length text.now }
    ensures { shown result ≡ quoted_at at (drop (at + 1) text.now) }
{
    let rest = &text[at + 1..];
    match closing_quote(rest) {
        Some(n) => Next::Found(Token {
            kind: TokenKind::Quoted,
            text: &rest[..n],
            at,
            end: at + n + 2,
        }),
        None => Next::Broken(at),
    }
}

fn word_at(text: &[u8], at: usize) -> Next<'_>
    requires { at < length text.now }
    ensures { shown result ≡ word_at at (drop at text.now) }
{
    let rest = &text[at..];
    let n = word_length(rest);
    Next::Found(Token {
        kind: TokenKind::Word,
        text: &rest[..n],
        at,
        end: at + n,
    })
}

fn token_at(text: &[u8], at: usize) -> Next<'_>
    requires { at ≤ length text.now }
    ensures { shown result ≡ token_at at (drop at text.now) }
{
    if at == text.len() {
        return Next::Ends(at);
    }
    match text[at] {
        b'(' => sign(TokenKind::OpenParen, text, at),
        b')' => sign(TokenKind::CloseParen, text, at),
        b'=' => sign(TokenKind::Equals, text, at),
        b'<' => iri_at(text, at),
        b'"' => quoted_at(text, at),
        byte if is_word_byte(byte) => word_at(text, at),
        _ => Next::Broken(at),
    }
}

/// What stands next in a text, from a place on: a token, the end, or a byte that begins no token. White space and comments
/// are passed over.
pub fn next_token(text: &[u8], from: usize) -> Next<'_>
    requires { from ≤ length text.now }
    ensures next { shown result ≡ next text.now from }
    ensures within { IsWithin from (length text.now) (shown result) }
{
    token_at(text, gap_end(text, from))
}
