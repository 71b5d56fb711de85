//! `itree_whole_window`: the window that several make up.

ghost use Rattle.std.specs.Prelude.{◌≡◌, ◌≢◌, ◌↔◌, ◌⊎◌, All, AllPairs};
ghost use Rattle.tiles.specs.Join.{AreApart};
ghost use Rattle.tiles.specs.Window.{HasPoints};
ghost use Rattle.itree_c.specs.Tiles.{WritesWhole};
ghost use Rattle.itree_c.specs.declared.status.TheConstants.{ANSWERED, WINDOW};

use crate::status::{ANSWERED, WINDOW};
use tiles::{Window, whole_of};

/// Writes the window that these make up without a gap, where there is one, and whether there is: 1 or 0.
///
/// The status is `ANSWERED` (0), or `WINDOW` (10) where a window has no points, or two have a common point: then nothing is
/// written. It takes no memory. Which window they make up is said at `whole_of` of `tiles`.
#[unsafe(no_mangle)]
pub extern "C" fn itree_whole_window(windows: &[Window], whole: &mut Window, found: &mut i32) -> i32
    ensures answered { result ≡ ANSWERED → WritesWhole windows.now found.new whole.old whole.new }
    ensures window { (result ≡ WINDOW) ↔ ¬ (All HasPoints windows.now × AllPairs AreApart windows.now) }
    ensures kept { result ≢ ANSWERED → (whole.new ≡ whole.old) × (found.new ≡ found.old) }
    ensures status { (result ≡ ANSWERED) ⊎ (result ≡ WINDOW) }
{
    match whole_of(windows) {
        Ok(Some(window)) => {
            *whole = window;
            *found = 1;
            ANSWERED
        }
        Ok(None) => {
            *found = 0;
            ANSWERED
        }
        Err(_) => WINDOW,
    }
}
