// The law of `tableau_bounds` is called.
use std::test::Fail;
use tableau_bounds::search_ends;

#[test]
fn law_asks_for_nothing(_rt: HostRuntime) -> Result<(), Fail> {
    search_ends();
    Ok(())
}
