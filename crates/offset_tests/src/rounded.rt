//! Circles, squares and octagons, worked by hand.

use offset::{ShapeFault, circle, circle_within, octagon, square};
use plane::point::Point;
use std::alloc::Global;
use std::test::Fail;

// A radius, how many corners at most, the corners and the inner radius.
struct Row {
    name: &'static str,
    radius: i32,
    most: usize,
    wanted: Result<(&'static [(i32, i32)], i32), ShapeFault>,
}

static ROWS: [Row; 7] = [
    Row {
        name: "no room for more than a diamond",
        radius: 10,
        most: 7,
        wanted: Ok((&[(10, 0), (0, 10), (-10, 0), (0, -10)], 7)),
    },
    Row {
        name: "eight corners",
        radius: 10,
        most: 15,
        wanted: Ok((
            &[
                (10, 0),
                (7, 7),
                (0, 10),
                (-7, 7),
                (-10, 0),
                (-7, -7),
                (0, -10),
                (7, -7),
            ],
            9,
        )),
    },
    Row {
        name: "sixteen corners",
        radius: 24,
        most: 16,
        wanted: Ok((
            &[
                (24, 0),
                (22, 9),
                (16, 16),
                (9, 22),
                (0, 24),
                (-9, 22),
                (-16, 16),
                (-22, 9),
                (-24, 0),
                (-22, -9),
                (-16, -16),
                (-9, -22),
                (0, -24),
                (9, -22),
                (16, -16),
                (22, -9),
            ],
            22,
        )),
    },
    Row {
        name: "a small radius has no more corners",
        radius: 5,
        most: 64,
        wanted: Ok((&[(5, 0), (0, 5), (-5, 0), (0, -5)], 3)),
    },
    Row {
        name: "the least radius",
        radius: 1,
        most: 4,
        wanted: Ok((&[(1, 0), (0, 1), (-1, 0), (0, -1)], 0)),
    },
    Row {
        name: "no radius",
        radius: 0,
        most: 3,
        wanted: Err(ShapeFault::Radius),
    },
    Row {
        name: "too few corners",
        radius: 1,
        most: 3,
        wanted: Err(ShapeFault::Corners),
    },
];

fn are_points(points: &[Point], wanted: &[(i32, i32)]) -> bool {
    points.len() == wanted.len()
        && points
            .iter()
            .zip(wanted)
            .all(|(point, (x, y))| point.x == *x && point.y == *y)
}

fn is_told(alloc: Global, row: &Row) -> bool {
    match (circle(alloc, row.radius, row.most), row.wanted) {
        (Ok(told), Ok((corners, inner))) => {
            are_points(&told.corners, corners) && told.inner == inner
        }
        (Err(fault), Err(wanted)) => fault == wanted,
        _ => false,
    }
}

#[test]
fn circles_are_as_worked_by_hand(rt: HostRuntime) -> Result<(), Fail> {
    for row in &ROWS {
        assert!(rt; is_told(rt.alloc(), row), "{}", row.name);
    }
    Ok(())
}

#[test]
fn a_tolerance_picks_the_corners(rt: HostRuntime) -> Result<(), Fail> {
    let told = circle_within(rt.alloc(), 100, 5)?;
    assert_eq!(rt; told.corners.len(), 16);
    assert_eq!(rt; told.inner, 97);
    let none = circle_within(rt.alloc(), 100, 0);
    assert!(rt; none.is_err_and(|fault| fault == ShapeFault::Tolerance));
    Ok(())
}

#[test]
fn squares_and_octagons_are_as_worked_by_hand(rt: HostRuntime) -> Result<(), Fail> {
    assert!(rt; are_points(&square(3)?, &[(-3, -3), (3, -3), (3, 3), (-3, 3)]));
    let eight = [
        (10, -4),
        (10, 4),
        (4, 10),
        (-4, 10),
        (-10, 4),
        (-10, -4),
        (-4, -10),
        (4, -10),
    ];
    assert!(rt; are_points(&octagon(10)?, &eight));
    assert!(rt; square(0).is_err_and(|fault| fault == ShapeFault::Radius));
    assert!(rt; octagon(2).is_err_and(|fault| fault == ShapeFault::Radius));
    Ok(())
}
