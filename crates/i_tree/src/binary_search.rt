//! Halving a slice whose front alone passes a test.

ghost use Rattle.std.specs.Prelude.{◌≡◌, ◌≤◌, ◌<◌, ◌-◌, ◌/◌, Bool, true, false, length};
ghost use Rattle.std.specs.Fn.{FnReturnsAt};
ghost use Rattle.std.specs.List.{AllWithin};
ghost use Rattle.std.specs.List.Sorted.{IsPartitionPoint, IsPartitionedBy};
ghost use Rattle.i_tree.specs.Root.BinarySearch.{TakesItems, ItemsAnswer, Surrounds};

use crate::select::select;

// A part of a slice, by its first position and how many items it has. The last that passes, or the first of all, is in it.
#[derive(Clone, Copy)]
struct Window {
    start: usize,
    size: usize,
}

/// How many items at the front pass, where none that passes stands after one that fails.
///
/// Each turn tests one item and leaves half. All turns that a slice of common length needs stand in a row, and each goes
/// on by a selection, so that nothing branches on a test: the processor would guess it wrongly half of the time.
pub fn count_passing<X, P: Fn(&X) -> bool>(items: &[X], passes: P) -> usize
    requires { TakesItems (λ item. P.pre passes item) items.now }
    ensures within { result ≤ length items.now }
    ensures splits { (test : X → Bool) → ItemsAnswer
        (λ item answer. FnReturnsAt P.Fn passes item answer) test items.now → IsPartitionedBy test items.now
        → IsPartitionPoint (λ item. test item ≡ true) (λ item. test item ≡ false) items.now result }
{
    if items.is_empty() {
        return 0;
    }
    let whole = Window {
        start: 0,
        size: items.len(),
    };
    let mut window = halve_often(items, &passes, whole);
    // All items before the window pass, and all behind it fail.
    while window.size > 1 {
        window = halve(items, &passes, window);
    }
    window.start + usize::from(passes(&items[window.start]))
}

// Halves a window twenty times, or until one item is left: enough for a million items.
fn halve_often<X, P: Fn(&X) -> bool>(items: &[X], passes: &P, window: Window) -> Window
    requires callable { TakesItems (λ item. P.pre passes.now item) items.now }
    requires around { Surrounds (λ item answer. FnReturnsAt P.Fn passes.now item answer)
        items.now window.start window.size }
    ensures { Surrounds (λ item answer. FnReturnsAt P.Fn passes.now item answer) items.now result.start result.size }
{
    let window = halve_four_times(items, passes, window);
    let window = halve_four_times(items, passes, window);
    let window = halve_four_times(items, passes, window);
    let window = halve_four_times(items, passes, window);
    halve_four_times(items, passes, window)
}

#[inline(always)]
fn halve_four_times<X, P: Fn(&X) -> bool>(items: &[X], passes: &P, window: Window) -> Window
    requires callable { TakesItems (λ item. P.pre passes.now item) items.now }
    requires around { Surrounds (λ item answer. FnReturnsAt P.Fn passes.now item answer)
        items.now window.start window.size }
    ensures { Surrounds (λ item answer. FnReturnsAt P.Fn passes.now item answer) items.now result.start result.size }
{
    let window = halve(items, passes, window);
    let window = halve(items, passes, window);
    let window = halve(items, passes, window);
    halve(items, passes, window)
}

// The half of a window that the answer lies in, by a test of its middle. A window of one item stays.
#[inline(always)]
fn halve<X, P: Fn(&X) -> bool>(items: &[X], passes: &P, window: Window) -> Window
    requires callable { TakesItems (λ item. P.pre passes.now item) items.now }
    requires around { Surrounds (λ item answer. FnReturnsAt P.Fn passes.now item answer)
        items.now window.start window.size }
    ensures around { Surrounds (λ item answer. FnReturnsAt P.Fn passes.now item answer)
        items.now result.start result.size }
    ensures less { 1 < window.size → result.size < window.size }
{
    if window.size <= 1 {
        return window;
    }
    let half = window.size / 2;
    let middle = window.start + half;
    Window {
        start: select(passes(&items[middle]), middle, window.start),
        size: window.size - half,
    }
}
