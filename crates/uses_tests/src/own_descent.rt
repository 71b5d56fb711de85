//! A descent of one's own.

use i_tree::rb::RbTree;
use std::test::Fail;
use uses::own_descent::{contains, insert};

#[test]
fn finds_what_was_put(rt: HostRuntime) -> Result<(), Fail> {
    let mut numbers = RbTree::new(rt.alloc(), 0)?;
    assert!(rt; !contains(&numbers, 4));
    for number in [4, 2, 9, 7, 2, 8, 1, 12, 10, 11] {
        insert(&mut numbers, number)?;
    }
    assert_eq!(rt; numbers.len(), 9);
    for number in 0..=13 {
        let wanted = matches!(number, 1 | 2 | 4 | 7..=12);
        assert_eq!(rt; contains(&numbers, number), wanted);
    }
    Ok(())
}
