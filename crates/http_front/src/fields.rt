// What the fields of a head tell.
ghost use Rattle.std.specs.Prelude.{◌≡◌, ◌≤◌, None, All, length, map};
ghost use Rattle.httparse.specs.Spans.{IsHeaderWithin, header_bytes};
ghost use Rattle.http_front.specs.Fields.{is_named, fields_named, has_transfer_coding, is_bad_host, value_named, is_at, is_page_of, is_own_origin, is_foreign, body_length, with_field, told_after};

use crate::numbers::number_of;
use httparse::spans::HeaderSpan;

// Whether a field has this name, without regard to the case of letters.
#[tactic(auto, unfolding(crate::specs::Fields::is_named))]
fn is_named(bytes: &[u8], field: &HeaderSpan, name: &str) -> bool
    requires { IsHeaderWithin (length bytes.now) field.now }
    ensures { result ≡ is_named name.now (header_bytes bytes.now field.now) }
{
    field.name.of(bytes).eq_ignore_ascii_case(name.as_bytes())
}

// How many fields have this name.
fn fields_named(bytes: &[u8], fields: &[HeaderSpan], name: &str) -> usize
    requires { All (IsHeaderWithin (length bytes.now)) fields.now }
    ensures { result ≡ fields_named name.now (map (header_bytes bytes.now) fields.now) }
{
    let mut count = 0;
    for field in fields {
        if is_named(bytes, field, name) {
            count += 1;
        }
    }
    count
}

/// Whether a field tells how the body is coded for its transfer.
pub fn has_transfer_coding(bytes: &[u8], fields: &[HeaderSpan]) -> bool
    requires { All (IsHeaderWithin (length bytes.now)) fields.now }
    ensures { result ≡ has_transfer_coding (map (header_bytes bytes.now) fields.now) }
{
    fields_named(bytes, fields, "Transfer-Encoding") > 0
}

/// Whether more than one field names the host, or none does in a head of HTTP/1.1.
pub fn is_bad_host(bytes: &[u8], fields: &[HeaderSpan], minor: u8) -> bool
    requires { All (IsHeaderWithin (length bytes.now)) fields.now }
    ensures { result ≡ is_bad_host minor (map (header_bytes bytes.now) fields.now) }
{
    let hosts = fields_named(bytes, fields, "Host");
    hosts > 1 || (minor == 1 && hosts == 0)
}

/// Whether this is a request that posts, from another site's page (RFC 6454): a browser sends such a page's origin.
pub fn is_foreign(bytes: &[u8], fields: &[HeaderSpan], method: &[u8]) -> bool
    requires { All (IsHeaderWithin (length bytes.now)) fields.now }
    ensures { result ≡ is_foreign method.now (map (header_bytes bytes.now) fields.now) }
{
    method == "POST".as_bytes() && !is_own_origin(bytes, fields)
}

// Whether no field tells an origin, or one does, and it is that of a page of the one host that is named.
fn is_own_origin(bytes: &[u8], fields: &[HeaderSpan]) -> bool
    requires { All (IsHeaderWithin (length bytes.now)) fields.now }
    ensures { result ≡ is_own_origin (map (header_bytes bytes.now) fields.now) }
{
    let origins = fields_named(bytes, fields, "Origin");
    let hosts = fields_named(bytes, fields, "Host");
    let origin = value_named(bytes, fields, "Origin");
    let host = value_named(bytes, fields, "Host");
    origins == 0 || (origins == 1 && (hosts == 1 && is_page_of(host, origin)))
}

// Whether the origin is that of a page of this host.
fn is_page_of(host: &[u8], origin: &[u8]) -> bool
    ensures { result ≡ is_page_of host.now origin.now }
{
    is_at("http://".as_bytes(), host, origin) || is_at("https://".as_bytes(), host, origin)
}

// Whether the origin is this scheme with this host, without regard to the case of letters.
#[tactic(auto, unfolding(crate::specs::Fields::is_at))]
fn is_at(scheme: &[u8], host: &[u8], origin: &[u8]) -> bool
    ensures { result ≡ is_at scheme.now host.now origin.now }
{
    if origin.len() < scheme.len() {
        return false;
    }
    let (front, rest) = origin.split_at(scheme.len());
    front.eq_ignore_ascii_case(scheme) && rest.eq_ignore_ascii_case(host)
}

// The value of the first field of this name; nothing where there is none.
fn value_named<'a>(bytes: &'a [u8], fields: &[HeaderSpan], name: &str) -> &'a [u8]
    requires { All (IsHeaderWithin (length bytes.now)) fields.now }
    ensures { result.now ≡ value_named name.now (map (header_bytes bytes.now) fields.now) }
{
    for field in fields {
        if is_named(bytes, field, name) {
            return field.value.of(bytes);
        }
    }
    &[]
}

/// The length of the body, if all fields that tell it tell one and the same; 0 where none does.
#[tactic(auto, using(crate::proofs::FieldLemmas::told_all))]
pub fn body_length(bytes: &[u8], fields: &[HeaderSpan]) -> Option<u64>
    requires { All (IsHeaderWithin (length bytes.now)) fields.now }
    ensures { result ≡ body_length (map (header_bytes bytes.now) fields.now) }
{
    told_length(bytes, fields)
}

// The same, one field after another.
fn told_length(bytes: &[u8], fields: &[HeaderSpan]) -> Option<u64>
    requires { All (IsHeaderWithin (length bytes.now)) fields.now }
    ensures { result ≡ told_after None (map (header_bytes bytes.now) fields.now) }
{
    let mut found = None;
    for field in fields {
        found = with_field(bytes, field, found)?;
    }
    Some(found.unwrap_or(0))
}

// What was told before, and what a field tells; `None` where they differ or it is no number.
#[tactic(auto, unfolding(crate::specs::Fields::with_field))]
fn with_field(bytes: &[u8], field: &HeaderSpan, found: Option<u64>) -> Option<Option<u64>>
    requires { IsHeaderWithin (length bytes.now) field.now }
    ensures { result ≡ with_field found (header_bytes bytes.now field.now) }
{
    if !is_named(bytes, field, "Content-Length") {
        return Some(found);
    }
    let Some(told) = number_of(field.value.of(bytes), 19) else {
        return None;
    };
    match found {
        Some(other) if other != told => None,
        _ => Some(Some(told)),
    }
}
