//! A booking that is listed on a later day.

use i_tree::seg::exp::SegRange;
use i_tree::seg::tree::SegExpTree;
use std::test::Fail;
use uses::kept_booking::{Booking, listed_later};

#[test]
fn lists_a_booking_until_its_last_day(rt: HostRuntime) -> Result<(), Fail> {
    let year = SegRange { min: 0, max: 8759 };
    let hours = SegRange { min: 100, max: 200 };
    let asked = SegRange { min: 200, max: 900 };
    for (later, count) in [(5, 1), (9, 1), (10, 0)] {
        let Some(mut tree) = SegExpTree::new(rt.alloc(), year)? else {
            return Err(Fail::from("the year has no layout"));
        };
        let booking = Booking {
            name: 7,
            hours,
            until: 9,
        };
        let mut listed = Vec::new(rt.alloc());
        assert!(rt; listed_later(&mut tree, booking, asked, 5, later, &mut listed)?);
        assert_eq!(rt; listed.len(), count);
    }
    Ok(())
}
