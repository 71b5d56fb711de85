//! Which window several ones make up.

ghost use Rattle.std.specs.List.{sum_by};
ghost use Rattle.std.specs.Prelude.{◌≡◌, ◌<◌, ◌^◌, All, AllPairs, IfErr, IfOk};
ghost use Rattle.std.specs.Option.{MatchOption};
ghost use Rattle.tiles.specs.Join.{AreApart, AreBeside};
ghost use Rattle.tiles.specs.Whole.{IsWhole, IsWholeFault, area};
ghost use Rattle.tiles.specs.Window.{HasPoints};
ghost use Rattle.tiles.specs.declared.window.Window.{Window};

use crate::join_fault::JoinFault;
use crate::joined::checks::{are_all_beside, have_points};
use crate::joined::windows::around;
use crate::window::Window;

/// The window that these make up: each point of it lies in one of them, and each point of one of them in it. `None` where there is
/// no such window: they leave a gap, or there are none.
///
/// `Empty` comes where a window has no points. Else `Overlap` comes where two have a common point. Nothing else is a fault, since
/// no memory is asked for.
pub fn whole_of(windows: &[Window]) -> Result<Option<Window>, JoinFault>
    ensures ok { IfOk result (λ found. All HasPoints windows.now × AllPairs AreApart windows.now
        × MatchOption found ((whole : Window) → ¬ (IsWhole whole windows.now)) (λ whole. IsWhole whole windows.now)) }
    ensures fault { IfErr result (IsWholeFault windows.now) }
{
    if !have_points(windows) {
        return Err(JoinFault::Empty);
    }
    if !are_all_beside(windows) {
        return Err(JoinFault::Overlap);
    }
    Ok(made_up(windows))
}

// The same of windows with points that lie beside each other.
fn made_up(windows: &[Window]) -> Option<Window>
    requires some { All HasPoints windows.now }
    requires beside { AllPairs AreBeside windows.now }
    ensures { MatchOption result ((whole : Window) → ¬ (IsWhole whole windows.now)) (λ whole. IsWhole whole windows.now) }
{
    if windows.is_empty() {
        return None;
    }
    let whole = around(windows);
    if area_of_all(windows) == area_of(whole) {
        Some(whole)
    } else {
        None
    }
}

// How many unit squares the windows have together.
fn area_of_all(windows: &[Window]) -> u128
    ensures { result ≡ sum_by area windows.now }
{
    let mut sum = 0;
    // It is the sum of those so far, which have less than 2 ^ 64 each.
    for window in windows {
        sum += area_of(*window);
    }
    sum
}

// How many unit squares the window has.
fn area_of(window: Window) -> u128
    ensures area { result ≡ area window }
    ensures less { result < 2 ^ 64 }
{
    let width = window.right.abs_diff(window.left);
    let height = window.high.abs_diff(window.low);
    u128::from(width) * u128::from(height)
}
