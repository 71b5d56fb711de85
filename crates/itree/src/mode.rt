//! The modes of the program.

ghost use Rattle.std.specs.Prelude.{◌≡◌, ◌≢◌, ◌↔◌, ◌∷◌, [], codes, IfSome, IsNone, IsTrue};
ghost use Rattle.i_tree.specs.Seg.Buckets.{HasLayout};
ghost use Rattle.itree.specs.Grammar.{ReadsAll};
ghost use Rattle.itree.specs.Modes.{Names, NamesMode, NamedBy, FitsItsNumbers, IsSpan, NamesRange, operation_word, rule_word, sides_of};
ghost use Rattle.overlay.specs.declared.fill.rules.FillRule.{FillRule};
ghost use Rattle.overlay.specs.declared.fill.rules.Operation.{Operation};
ghost use Rattle.tiles.specs.Window.{CanCropTo};

use crate::lines::number;
use i_tree::{LayoutNumber, LayoutUInt};
use overlay::fill::{FillRule, Operation};
use tiles::Window;

/// The least number for a side of a window: 2 more than the least of all.
pub const LEAST_SIDE: i32 = i32::MIN + 2;

/// The greatest one: 2 less than the greatest of all.
pub const GREATEST_SIDE: i32 = i32::MAX - 2;

/// What the program runs its commands over.
#[derive(Clone, Copy, Debug, PartialEq, Eq)]
pub enum Mode {
    /// Keys that expire, in a tree.
    KeyTree,
    /// Keys that expire, in a sorted list.
    KeyList,
    /// An ordered set in a tree.
    SetTree,
    /// An ordered set in a sorted vector.
    SetList,
    /// Segments over the range from `min` to `max`, which has a layout.
    Segments {
        min: i32,
        max: i32,
    },
    /// A sweep over horizontal segments.
    Sweep,
    /// Edges of the plane, and which of them meet.
    Meetings,
    /// Points among edges of the plane, and which edge lies straight below each.
    Locate,
    /// Edges of the plane, which of them cross, and which reach ranges of heights.
    Crossings,
    /// Edges of the plane, and over which points of the grid each goes where they are broken.
    Snap,
    /// As in `Snap`, but where edges are moved only where they must be.
    Node,
    /// Rings of the subject and of the clip, and the polygons that the operation makes of what is inside of them by the rule.
    Overlay {
        operation: Operation,
        rule: FillRule,
    },
    /// As in `Overlay`, but what of the polygons lies in the window, within which an overlay can be made.
    Tile {
        window: Window,
        operation: Operation,
        rule: FillRule,
    },
    /// Rings and corners of a shape, and the polygons that what is inside of the rings by the rule becomes where it grows by the
    /// shape.
    Grow {
        rule: FillRule,
    },
    /// The same rings and corners, and the polygons of what is left of the inside where the shape is taken along outside.
    Shrink {
        rule: FillRule,
    },
    /// Paths and corners of a shape, and the polygons that the paths become where they grow by the shape.
    Paths,
}

impl Mode {
    /// The mode that the arguments name, or `None` where they name none.
    pub fn from_words(words: &[&str]) -> Option<Mode>
        ensures named { IfSome result (Names words.now) }
        ensures unnamed { IsNone result → ¬ (NamesMode words.now) }
        ensures layout { IfSome result FitsItsNumbers }
    {
        match words {
            ["keytree"] => Some(Mode::KeyTree),
            ["keylist"] => Some(Mode::KeyList),
            ["settree"] => Some(Mode::SetTree),
            ["setlist"] => Some(Mode::SetList),
            ["seg", min, max] => segments(min, max),
            ["sweep"] => Some(Mode::Sweep),
            ["meetings"] => Some(Mode::Meetings),
            ["locate"] => Some(Mode::Locate),
            ["crossings"] => Some(Mode::Crossings),
            ["snap"] => Some(Mode::Snap),
            ["node"] => Some(Mode::Node),
            ["offset", "lines"] => Some(Mode::Paths),
            ["offset", operation, rule] => offset_by(operation, rule),
            ["overlay", operation, rule] => overlay_by(operation, rule),
            [
                "overlay",
                operation,
                rule,
                "--window",
                left,
                low,
                right,
                high,
            ] => { tile_by(operation, rule, left, low, right, high) }
            _ => None,
        }
    }
}

// The mode of segments over the range whose ends the words are read as, if it has a layout.
fn segments(min: &str, max: &str) -> Option<Mode>
    ensures named { IfSome result (NamesRange min.now max.now) }
    ensures unnamed { IsNone result → (mode : Mode) → ¬ (NamesRange min.now max.now mode) }
{
    let min = number(min)?;
    let max = number(max)?;
    if !has_layout(min, max) {
        return None;
    }
    Some(Mode::Segments { min, max })
}

// The mode of an overlay by the operation and the rule that the words name.
fn overlay_by(operation: &str, rule: &str) -> Option<Mode>
    ensures named { IfSome result (λ mode. NamedBy mode (codes "overlay" ∷ operation.now ∷ rule.now ∷ [])) }
    ensures unnamed { IsNone result → (mode : Mode) → ¬ (NamedBy mode (codes "overlay" ∷ operation.now ∷ rule.now ∷ [])) }
{
    let operation = operation_named(operation)?;
    let rule = rule_named(rule)?;
    Some(Mode::Overlay { operation, rule })
}

// The mode of what grows or shrinks, as the operation says, by the rule that the other word names.
fn offset_by(operation: &str, rule: &str) -> Option<Mode>
    ensures named { IfSome result (λ mode. NamedBy mode (codes "offset" ∷ operation.now ∷ rule.now ∷ [])) }
    ensures unnamed { IsNone result → (mode : Mode) → ¬ (NamedBy mode (codes "offset" ∷ operation.now ∷ rule.now ∷ [])) }
{
    let rule = rule_named(rule)?;
    match operation {
        "grow" => Some(Mode::Grow { rule }),
        "shrink" => Some(Mode::Shrink { rule }),
        _ => None,
    }
}

// The mode of an overlay by the operation and the rule that the words name, within the window that the others are read as.
fn tile_by(
    operation: &str,
    rule: &str,
    left: &str,
    low: &str,
    right: &str,
    high: &str,
) -> Option<Mode>
    ensures named { IfSome result (λ mode. NamedBy mode (codes "overlay" ∷ operation.now ∷ rule.now ∷ codes "--window"
        ∷ left.now ∷ low.now ∷ right.now ∷ high.now ∷ [])) }
    ensures unnamed { IsNone result → (mode : Mode) → ¬ (NamedBy mode (codes "overlay" ∷ operation.now ∷ rule.now
        ∷ codes "--window" ∷ left.now ∷ low.now ∷ right.now ∷ high.now ∷ [])) }
{
    let operation = operation_named(operation)?;
    let rule = rule_named(rule)?;
    let window = window_named(left, low, right, high)?;
    Some(Mode::Tile {
        window,
        operation,
        rule,
    })
}

// The window whose sides the words are read as, if an overlay can be made within it.
fn window_named(left: &str, low: &str, right: &str, high: &str) -> Option<Window>
    ensures named { IfSome result (λ window. CanCropTo window
        × ReadsAll (left.now ∷ low.now ∷ right.now ∷ high.now ∷ []) (sides_of window)) }
    ensures unnamed { IsNone result → (window : Window) → CanCropTo window →
        ¬ (ReadsAll (left.now ∷ low.now ∷ right.now ∷ high.now ∷ []) (sides_of window)) }
{
    let left = number(left)?;
    let low = number(low)?;
    let right = number(right)?;
    let high = number(high)?;
    let window = Window {
        left,
        low,
        right,
        high,
    };
    if !can_crop_to(window) {
        return None;
    }
    Some(window)
}

// Whether an overlay can be made within the window.
fn can_crop_to(window: Window) -> bool
    ensures { IsTrue result ↔ CanCropTo window }
{
    is_span(window.left, window.right) && is_span(window.low, window.high)
}

// Whether a window may go from the one number to the other along an axis: it has points then, and a margin.
fn is_span(low: i32, high: i32) -> bool
    ensures { IsTrue result ↔ IsSpan low high }
{
    LEAST_SIDE <= low && low < high && high <= GREATEST_SIDE
}

/// The operation that the word names.
pub fn operation_named(word: &str) -> Option<Operation>
    ensures named { IfSome result (λ operation. word.now ≡ operation_word operation) }
    ensures unnamed { IsNone result → (operation : Operation) → word.now ≢ operation_word operation }
{
    match word {
        "union" => Some(Operation::Union),
        "intersection" => Some(Operation::Intersection),
        "difference" => Some(Operation::Difference),
        "xor" => Some(Operation::Xor),
        _ => None,
    }
}

/// The rule that the word names.
pub fn rule_named(word: &str) -> Option<FillRule>
    ensures named { IfSome result (λ rule. word.now ≡ rule_word rule) }
    ensures unnamed { IsNone result → (rule : FillRule) → word.now ≢ rule_word rule }
{
    match word {
        "evenodd" => Some(FillRule::EvenOdd),
        "nonzero" => Some(FillRule::NonZero),
        "positive" => Some(FillRule::Positive),
        "negative" => Some(FillRule::Negative),
        _ => None,
    }
}

// Whether the range goes upwards, over at least the least span.
fn has_layout(min: i32, max: i32) -> bool
    ensures { IsTrue result ↔ HasLayout 31 min max }
{
    match i32::range_span(min, max) {
        Some(span) => span >= u32::HEAP_MIN_SPAN,
        None => false,
    }
}
