// Lines are written and read.
use lexicon::Kind;
use std::alloc::Global;
use std::test::Fail;
use wiki_base::{Memory, Text8, Text8s};
use wiki_talk::{Request, WikiRequest, WordRequest};
use wire_json::{read_request, request_line};

fn word(alloc: Global) -> Result<Request, Memory> {
    let mut forms = Text8s::new(alloc);
    forms.push(Text8::from_str(alloc, "a\"b")?)?;
    Ok(Request::OnWiki(WikiRequest::Word {
        kind: Kind::Verb,
        forms,
    }))
}

#[test]
fn a_request_is_written_with_its_members_alone(rt: HostRuntime) -> Result<(), Fail> {
    let alloc = rt.alloc();
    let find = Request::OnWord {
        word: Text8::from_str(alloc, "Bern")?,
        asked: WordRequest::Find,
    };
    let lines = [
        (
            word(alloc)?,
            "{\"do\":\"word\",\"forms\":[\"a\\\"b\"],\"kind\":\"verb\"}\n",
        ),
        (find, "{\"do\":\"find\",\"word\":\"Bern\"}\n"),
        (Request::OnWiki(WikiRequest::Words), "{\"do\":\"words\"}\n"),
    ];
    for (request, want) in &lines {
        let line = request_line(alloc, request)?;
        assert_eq!(rt; line.as_str(), *want);
        let again = read_request(alloc, line.as_str().as_bytes())?;
        assert!(rt; again.is_some());
    }
    Ok(())
}
