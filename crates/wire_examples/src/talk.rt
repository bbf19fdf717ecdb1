// The tables of names.
use logic_terms::Cause;
use wiki_talk::{Limit, Refusal, Status, cause_name};

#[test]
fn a_refusal_is_told_by_its_number_and_name(rt: HostRuntime) {
    let title = Refusal::BadForm { which: 0 }.title();
    assert_eq!(rt; title.number, 2);
    assert_eq!(rt; title.name, "BadForm");
    assert_eq!(rt; Limit::Words.name(), "words");
    assert_eq!(rt; Limit::Numbers.amount(), 4_294_967_295);
}

#[test]
fn a_status_is_told_by_its_name_and_cause(rt: HostRuntime) {
    assert_eq!(rt; Status::RedContradiction.name(), "contradiction");
    assert_eq!(rt; Status::Asserted.cause(), None);
    assert_eq!(rt;
        Status::QuestionOutside(Cause::NoRoot).cause(),
        Some(Cause::NoRoot)
    );
    assert_eq!(rt; cause_name(Cause::NoRoot), "noroot");
}
