// All lists of four tokens of the small grammars in which a rule does something odd.
use chart_examples::{ODD, difference_on_lists};
use std::test::Fail;

#[test]
fn lists_of_four_tokens_agree(rt: HostRuntime) -> Result<(), Fail> {
    for odd in &ODD {
        let other = difference_on_lists(rt.alloc(), *odd, 4)?;
        assert!(&rt;
            other.is_none(),
            "the chart and the listing differ by {}",
            odd.grammar
        );
    }
    Ok(())
}
