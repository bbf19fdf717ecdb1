// Articles are begun, changed and ended.
use articles::{Articles, Sentence, Shared};
use lists::Copied;
use std::alloc::Global;
use std::test::Fail;
use wiki_base::{Memory, Rev, Token, Tokens, WordId};
use wiki_talk::Status;

fn sentence(alloc: Global, status: Status) -> Result<Sentence, Memory> {
    let mut tokens = Tokens::new(alloc);
    tokens.push(Token::from_str(alloc, "x")?)?;
    Ok(Sentence {
        tokens: Shared::new(alloc, tokens)?,
        status,
    })
}

#[test]
fn sentences_are_stored_in_order_and_each_change_is_counted(rt: HostRuntime) -> Result<(), Fail> {
    let alloc = rt.alloc();
    let word = WordId(7);
    let mut articles = Articles::new(alloc)?;
    articles.begin(word)?;
    articles.insert(word, 0, sentence(alloc, Status::Asserted)?)?;
    articles.insert(word, 0, sentence(alloc, Status::Question)?)?;
    articles.mark(word, 1, Status::Retracted);
    assert_eq!(rt; articles.revision(word), Some(Rev(3)));
    let old = articles.replace(word, 0, sentence(alloc, Status::RedBudget)?);
    assert_eq!(rt; old.status, Status::Question);
    let copied = articles.get(0).sentences.copy()?;
    assert_eq!(rt; copied.get(1).status, Status::Retracted);
    assert_eq!(rt; articles.take(word, 0).status, Status::RedBudget);
    assert_eq!(rt; articles.take(word, 0).status, Status::Retracted);
    assert!(rt; articles.sentences(WordId(6)).is_none());
    articles.end(word);
    assert!(rt; articles.is_empty());
    Ok(())
}
