//! Handles that are kept.

use std::test::Fail;
use uses::kept_handles::taken_out;

#[test]
fn keeps_a_handle_over_an_insertion(rt: HostRuntime) -> Result<(), Fail> {
    assert_eq!(rt; taken_out(rt.alloc(), 3)?, 0);
    assert_eq!(rt; taken_out(rt.alloc(), 4)?, 40);
    Ok(())
}
