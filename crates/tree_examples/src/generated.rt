// A generated wiki by its first sentences.
use generator::{next_draw, sentence_of_kind};
use std::alloc::Global;
use std::test::Fail;
use wiki_base::Memory;
use wiki_talk::{ArticleRequest, Request};

// Whether the sentence of a kind by the three numbers that follow a draw is this text.
fn is_text(alloc: Global, kind: u32, draw: u32, text: &str) -> Result<bool, Memory> {
    if kind >= 5 || draw >= 65_537 {
        return Ok(false);
    }
    let one = next_draw(draw);
    let two = next_draw(one);
    let three = next_draw(two);
    let request = sentence_of_kind(alloc, kind, one, two, three)?;
    let same = has_text(&request, text);
    drop(request);
    Ok(same)
}

fn has_text(request: &Request, text: &str) -> bool {
    match request {
        Request::OnArticle {
            asked: ArticleRequest::Add { text: own, .. },
            ..
        } => own.as_str() == text,
        _ => false,
    }
}

// The draw after three times as many numbers as this.
fn after(sentences: u32, first: u32) -> u32 {
    let mut draw = first % 65_537;
    for _ in 0..sentences {
        for _ in 0..3 {
            draw = next_draw(draw % 65_537);
        }
    }
    draw % 65_537
}

#[test]
fn seed_seven_makes_these_sentences(rt: HostRuntime) -> Result<(), Fail> {
    let alloc = rt.alloc();
    for (kind, text) in [
        (0, "Namet verbjs Namem."),
        (1, "Every nounp is a nounr."),
        (2, "Names is a nounc."),
        (3, "Every nounh verbes only nounqs."),
        (4, "Which nounls verbh Nameb?"),
    ] {
        assert!(rt; is_text(alloc, kind, after(kind, 7), text)?);
    }
    Ok(())
}
