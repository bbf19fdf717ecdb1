// On all lists of up to three tokens of the small grammars the chart agrees with the listing; those of four are `sentence_examples`'.
// Where many of one category stand in a row, lists of three tokens are too short to share out.
use crate::odd::{
    AGREEING, AMBIGUOUS, LEFT_OUT, MANY_IN_A_ROW, MARKED_TWICE, NEGATIVE, NESTED_OPENERS,
    OPEN_TEST, OTHER_WORD, Oddity, PLACE_TO_COME, PLACES, TWICE_IN_A_CATEGORY, TWICE_IN_A_HEAD,
    WORD_TO_COME, difference_on_lists,
};
use std::alloc::Global;
use std::process::Abort;
use std::test::Fail;

const LONGEST: usize = 3;

/// With six tokens there are six ways to share out those before `e`.
const LONGEST_IN_A_ROW: usize = 6;

fn agrees(rt: &impl Abort, alloc: Global, odd: &Oddity) -> Result<(), Fail> {
    agrees_up_to(rt, alloc, odd, LONGEST)
}

fn agrees_up_to(rt: &impl Abort, alloc: Global, odd: &Oddity, longest: usize) -> Result<(), Fail> {
    for length in 0..longest.saturating_add(1) {
        let other = difference_on_lists(alloc, odd, length)?;
        assert!(rt; other.is_none(), "the chart and the listing differ");
    }
    Ok(())
}

#[test]
fn a_variable_may_stand_twice_in_a_category(rt: HostRuntime) -> Result<(), Fail> {
    agrees(&rt, rt.alloc(), &TWICE_IN_A_CATEGORY)
}

#[test]
fn a_variable_may_stand_twice_in_a_head(rt: HostRuntime) -> Result<(), Fail> {
    agrees(&rt, rt.alloc(), &TWICE_IN_A_HEAD)
}

#[test]
fn a_test_may_wait_for_a_later_word(rt: HostRuntime) -> Result<(), Fail> {
    agrees(&rt, rt.alloc(), &OPEN_TEST)
}

#[test]
fn a_marked_variable_may_have_a_value_before(rt: HostRuntime) -> Result<(), Fail> {
    agrees(&rt, rt.alloc(), &MARKED_TWICE)
}

#[test]
fn a_reference_may_have_negative_patterns(rt: HostRuntime) -> Result<(), Fail> {
    agrees(&rt, rt.alloc(), &NEGATIVE)
}

#[test]
fn an_introduction_may_leave_features_out(rt: HostRuntime) -> Result<(), Fail> {
    agrees(&rt, rt.alloc(), &LEFT_OUT)
}

#[test]
fn a_variable_may_be_a_place(rt: HostRuntime) -> Result<(), Fail> {
    agrees(&rt, rt.alloc(), &PLACES)
}

#[test]
fn scopes_may_be_nested(rt: HostRuntime) -> Result<(), Fail> {
    agrees(&rt, rt.alloc(), &NESTED_OPENERS)
}

#[test]
fn no_referent_may_agree_with_a_word_to_come(rt: HostRuntime) -> Result<(), Fail> {
    agrees(&rt, rt.alloc(), &WORD_TO_COME)
}

#[test]
fn no_referent_may_agree_with_a_place_to_come(rt: HostRuntime) -> Result<(), Fail> {
    agrees(&rt, rt.alloc(), &PLACE_TO_COME)
}

#[test]
fn forms_may_agree_in_number_and_first_letter(rt: HostRuntime) -> Result<(), Fail> {
    agrees(&rt, rt.alloc(), &AGREEING)
}

#[test]
fn a_word_may_have_to_be_new_or_the_same(rt: HostRuntime) -> Result<(), Fail> {
    agrees(&rt, rt.alloc(), &OTHER_WORD)
}

#[test]
fn tokens_may_have_many_trees(rt: HostRuntime) -> Result<(), Fail> {
    agrees(&rt, rt.alloc(), &AMBIGUOUS)
}

#[test]
fn tokens_may_be_shared_out_in_many_ways(rt: HostRuntime) -> Result<(), Fail> {
    agrees_up_to(&rt, rt.alloc(), &MANY_IN_A_ROW, LONGEST_IN_A_ROW)
}
