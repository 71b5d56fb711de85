//! Areas of parcels in districts.

use overlay::{Point, Rings};
use std::test::Fail;
use uses::parcels::twice_areas;

type Corner = (i32, i32);

// A triangle with a hole.
const PARCELS: [Corner; 7] = [(0, 0), (8, 0), (0, 8), (1, 1), (1, 2), (2, 2), (2, 1)];

// The left half has the triangle's trapezoid less the hole, 24 - 1, the right half has a triangle of 8, and the last one nothing.
const LEFT: [Corner; 4] = [(0, 0), (4, 0), (4, 9), (0, 9)];

const RIGHT: [Corner; 4] = [(4, 0), (9, 0), (9, 9), (4, 9)];

const APART: [Corner; 4] = [(20, 0), (30, 0), (30, 9), (20, 9)];

const TWICE: [i128; 3] = [46, 16, 0];

fn point_at(corner: Corner) -> Point {
    let (x, y) = corner;
    Point { x, y }
}

#[test]
fn tells_what_each_district_has(rt: HostRuntime) -> Result<(), Fail> {
    let parcels = Rings {
        points: &PARCELS.map(point_at),
        ends: &[3, 7],
    };
    let left = Rings {
        points: &LEFT.map(point_at),
        ends: &[4],
    };
    let right = Rings {
        points: &RIGHT.map(point_at),
        ends: &[4],
    };
    let apart = Rings {
        points: &APART.map(point_at),
        ends: &[4],
    };
    let areas = twice_areas(rt.alloc(), parcels, &[left, right, apart])?;
    assert!(rt; areas.as_slice() == TWICE.as_slice());
    Ok(())
}
