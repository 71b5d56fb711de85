//! Items with a box, and the test of two of them.

ghost use Rattle.std.specs.Prelude.{◌≡◌, MatchBool};
ghost use Rattle.plane.specs.declared.pairs.items.Bounds.{Bounds};

/// A box along the axes, by its sides. They are of it.
#[derive(Clone, Copy, Debug)]
pub struct Bounds {
    /// The least x.
    pub left: i32,
    /// The greatest x.
    pub right: i32,
    /// The least y.
    pub low: i32,
    /// The greatest y.
    pub high: i32,
}

/// An item that lies in a box.
pub trait Boxed: Copy {
    /// The box of the item.
    ghost bounds: { Self → Bounds };

    /// The box of the item.
    fn bounds(self) -> Bounds
        ensures { result ≡ bounds self };
}

/// An item that may meet items of a kind `Y`. What that says is for the item to tell.
pub trait Meets<Y>: Boxed {
    /// When the item meets the other one.
    ghost Meeting: { Self → Y → Type 0 };

    /// Whether the item meets the other one.
    fn meets(self, other: Y) -> bool
        ensures { MatchBool result (Meeting self other) (¬ (Meeting self other)) };
}
