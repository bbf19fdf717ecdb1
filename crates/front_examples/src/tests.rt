// The statuses are those that docs/HTTP.md tells.
use crate::told::{ASKED, OWN, WAITS, status, status_at, told, told_after, waited_for};
use std::alloc::Global;
use std::test::Fail;

#[test]
fn refusals_come_in_their_order(rt: HostRuntime) -> Result<(), Fail> {
    for (request, wanted) in &[
        ("GET / HTP\r\n", 400),
        (
            "POST /none HTTP/1.1\r\nTransfer-Encoding: chunked\r\nContent-Length: x\r\n\r\n",
            501,
        ),
        ("POST /none HTTP/1.1\r\nContent-Length: 65537\r\n\r\n", 400),
        ("POST /none HTTP/1.1\r\nHost: x\r\nhost: y\r\n\r\n", 400),
        (
            "POST /none HTTP/1.0\r\nContent-Length: 65537\r\nContent-Length: 1\r\n\r\n",
            400,
        ),
        ("POST /none HTTP/1.0\r\nContent-Length: 065537\r\n\r\n", 413),
        ("GET /session/x/none HTTP/1.0\r\n\r\n", 404),
        ("GET /session/x/type HTTP/1.0\r\n\r\n", 405),
        (
            "POST /session/x/type HTTP/1.0\r\nContent-Length: 9\r\n\r\n",
            400,
        ),
        (
            "POST /session/01/type HTTP/1.0\r\nContent-Length: 9\r\n\r\n",
            WAITS,
        ),
        (
            "POST /session/01/type HTTP/1.0\r\nContent-Length: 9\r\n\r\ntext=Bern",
            400,
        ),
    ] {
        assert_eq!(rt; status(rt.alloc(), request.as_bytes())?, *wanted);
    }
    Ok(())
}

#[test]
fn the_program_answers_at_paths_of_the_editor_page(rt: HostRuntime) -> Result<(), Fail> {
    for (target, got, posted) in &[
        ("/editor", OWN, 405),
        ("/editor?x", OWN, 405),
        ("/editor/index.html", OWN, 405),
        ("/editor/index%2Ehtml", OWN, 405),
        ("/editor/index.html?x", OWN, 405),
        ("/editor/", 404, 404),
        ("/editor/../", 404, 404),
        ("/editor/%2e%2e", 404, 405),
        ("/editor/Index.html", 404, 405),
    ] {
        assert_eq!(rt; status_at(rt.alloc(), "GET", target, "")?, *got);
        assert_eq!(rt; status_at(rt.alloc(), "POST", target, "")?, *posted);
    }
    // Its body is waited for, as any other.
    let half = b"GET /editor HTTP/1.0\r\nContent-Length: 2\r\n\r\na";
    assert_eq!(rt; status(rt.alloc(), half)?, WAITS);
    Ok(())
}

// A head with so many fields, the last of which is cut.
fn cut_fields(alloc: Global, count: usize, last: &str) -> Result<u16, Fail> {
    let mut head = String::from_str(alloc, "GET / HTTP/1.1\n")?;
    for _ in 0..count {
        head.push_str("a:b\n")?;
    }
    head.push_str(last)?;
    status(alloc, head.as_bytes())
}

// 66 lines make 65 fields, which are too many whatever follows.
#[test]
fn half_a_head_with_too_many_fields_is_refused(rt: HostRuntime) -> Result<(), Fail> {
    for (last, wanted) in &[("", WAITS), ("a:b", WAITS), ("a:b\n", 400)] {
        assert_eq!(rt; cut_fields(rt.alloc(), 64, last)?, *wanted);
    }
    Ok(())
}

// `Origin` is looked at where a request posts: it is to be that of a page of the one host that is named (RFC 6454).
#[test]
fn a_page_of_another_site_posts_nothing(rt: HostRuntime) -> Result<(), Fail> {
    for (fields, wanted) in &[
        ("Host: wiki:8080\r\n", ASKED),
        ("Host: wiki:8080\r\nOrigin: http://wiki:8080\r\n", ASKED),
        ("Host: Wiki:8080\r\nORIGIN: HTTPS://wiki:8080 \r\n", ASKED),
        ("Host: wiki:8080\r\nOrigin: http://wiki:8081\r\n", 403),
        ("Host: wiki\r\nOrigin: http://wiki.example\r\n", 403),
        ("Host: wiki\r\nOrigin: ftp://wiki\r\n", 403),
        ("Host: wiki\r\nOrigin: http://\r\n", 403),
        ("Host: wiki\r\nOrigin: null\r\n", 403),
        ("Host: wiki\r\nOrigin:\r\n", 403),
        (
            "Host: wiki\r\nOrigin: http://wiki\r\nOrigin: http://wiki\r\n",
            403,
        ),
        ("Origin: http://wiki\r\n", 403),
        (
            "Origin: http://x\r\nHost: wiki\r\nContent-Length: x\r\n",
            403,
        ),
        ("Origin: http://x\r\nHost: wiki\r\nHost: wiki\r\n", 400),
    ] {
        assert_eq!(rt;
            status_at(rt.alloc(), "POST", "/session/1/back", fields)?,
            *wanted
        );
        assert!(rt; status_at(rt.alloc(), "GET", "/session/1", fields)? != 403);
    }
    Ok(())
}

#[test]
fn fields_of_forms_are_read_as_kinds_and_numbers(rt: HostRuntime) -> Result<(), Fail> {
    for (request, wanted) in &[
        (
            "POST /word HTTP/1.0\r\nContent-Length: 18\r\n\r\nkind=cat&forms=cat",
            400,
        ),
        (
            "POST /word HTTP/1.0\r\nContent-Length: 19\r\n\r\nkind=name&forms=Ann",
            ASKED,
        ),
        (
            "POST /article/Ann/remove HTTP/1.0\r\nContent-Length: 13\r\n\r\nat=4294967296",
            400,
        ),
        (
            "POST /article/Ann/remove HTTP/1.0\r\nContent-Length: 13\r\n\r\nat=4294967295",
            ASKED,
        ),
        (
            "POST /article/Ann/remove HTTP/1.0\r\nContent-Length: 14\r\n\r\nat=00000000001",
            400,
        ),
        (
            "POST /article/Ann/remove HTTP/1.0\r\nContent-Length: 5\r\n\r\nat=+1",
            400,
        ),
    ] {
        assert_eq!(rt; status(rt.alloc(), request.as_bytes())?, *wanted);
    }
    Ok(())
}

#[test]
fn refusals_of_whole_requests(rt: HostRuntime) -> Result<(), Fail> {
    for (request, wanted) in &[
        ("GET / HTTP/1.1\r\n\r\n", 400),
        ("GET / HTTP/1.1\r\nHost: x\r\nHost: x\r\n\r\n", 400),
        (
            "POST /api HTTP/1.1\r\nHost: x\r\nContent-Length: 65537\r\n\r\n",
            413,
        ),
        (
            "GET / HTTP/1.1\r\nHost: x\r\nTransfer-Encoding: chunked\r\n\r\n",
            501,
        ),
        ("GET /none HTTP/1.1\r\nHost: x\r\n\r\n", 404),
        ("GET / HTTP/1.1\r\nHost: x\r\n\r\n", ASKED),
    ] {
        assert_eq!(rt; status(rt.alloc(), request.as_bytes())?, *wanted);
    }
    Ok(())
}

const PUTS_A_TOKEN: &[u8] =
    b"POST /session/7/type?x HTTP/1.1\r\nHost: x\r\nContent-Length: 13\r\n\r\ntoken=b+c%2E&";

#[test]
fn a_request_that_is_cut_anywhere_is_waited_for(rt: HostRuntime) -> Result<(), Fail> {
    assert_eq!(rt; waited_for(rt.alloc(), PUTS_A_TOKEN)?, PUTS_A_TOKEN.len());
    Ok(())
}

#[test]
fn what_is_asked_has_its_parts_and_a_refusal_its_reason(rt: HostRuntime) -> Result<(), Fail> {
    let cases: [(&[u8], &str); 5] = [
        (b"GET /editor/app.css HTTP/1.0\r\n\r\n", "app.css"),
        (b"GET /word HTTP/1.1\r\nHost: x\r\n\r\n", "405 but POST"),
        (PUTS_A_TOKEN, "put 'b c.' in 7, and go to /session/7"),
        // A body that is no line is told as such.
        (
            b"POST /api HTTP/1.0\r\nContent-Length: 2\r\n\r\n{}{}",
            "400 for its line",
        ),
        // A new word has its forms between spaces, and the first field of a name counts.
        (
            b"POST /word HTTP/1.0\r\nContent-Length: 44\r\n\r\nforms=city++cities&kind=noun&forms=x&kind=of",
            "a word of 2 forms, and go to /",
        ),
    ];
    for (request, wanted) in &cases {
        assert_eq!(rt; told(rt.alloc(), request)?.as_str(), *wanted);
    }
    Ok(())
}

#[test]
fn a_head_that_was_read_before_gives_the_same_request(rt: HostRuntime) -> Result<(), Fail> {
    let head = b"POST /article/B%C3%A9/add HTTP/1.0\r\nContent-Length: 8\r\n\r\n";
    let request = b"POST /article/B%C3%A9/add HTTP/1.0\r\nContent-Length: 8\r\n\r\ntext=x+.";
    assert_eq!(rt;
        told_after(rt.alloc(), head, request)?.as_str(),
        "add 'x .' to B\u{e9}, and go to /article/B%C3%A9"
    );
    Ok(())
}
