// The active segment and its cursor.
ghost use Rattle.std.specs.Prelude.{◌≡◌};
ghost use Rattle.rules.specs.Row.{row_of, column_of, row_start};
ghost use Rattle.rules.specs.State.{width_of, segment_top, segment_bottom, segment_start, segment_end, cursor_of, with_cursor, text_start, activated};

use crate::width::{cells, column_of, columns, row_of};
use rules::Screen;

// The width of the page.
pub fn width_of(x: Screen) -> u16
    ensures { result ≡ width_of x }
{
    columns(x.wide)
}

// The rows of the active segment: its first, and the one past its last.
#[tactic(auto, unfolding(rules::specs::State::segment_top))]
pub fn segment_top(x: Screen) -> u16
    ensures { result ≡ segment_top x }
{
    if x.active == 0 || x.split == 0 {
        0
    } else {
        u16::from(x.split - 1)
    }
}

#[tactic(auto, unfolding(rules::specs::State::segment_bottom))]
pub fn segment_bottom(x: Screen) -> u16
    ensures { result ≡ segment_bottom x }
{
    if x.split != 0 && x.active == 0 {
        u16::from(x.split - 1)
    } else {
        24
    }
}

// Its first cell, and the one past its last.
#[tactic(auto, using(crate::proofs::Segments::top_most))]
pub fn segment_start(x: Screen) -> u16
    ensures { result ≡ segment_start x }
{
    cells(x.wide, segment_top(x))
}

#[tactic(auto, using(crate::proofs::Segments::bottom_most))]
pub fn segment_end(x: Screen) -> u16
    ensures { result ≡ segment_end x }
{
    cells(x.wide, segment_bottom(x))
}

#[tactic(auto, unfolding(rules::specs::State::cursor_of))]
pub fn cursor_of(x: Screen) -> u16
    ensures { result ≡ cursor_of x }
{
    if x.active == 0 { x.cursor0 } else { x.cursor1 }
}

// The active cursor's row and column, and the first cell of its row.
pub fn cursor_row(x: Screen) -> u16
    ensures { result ≡ row_of (width_of x) (cursor_of x) }
{
    row_of(x.wide, cursor_of(x))
}

pub fn cursor_column(x: Screen) -> u16
    ensures { result ≡ column_of (width_of x) (cursor_of x) }
{
    column_of(x.wide, cursor_of(x))
}

pub fn row_start(x: Screen) -> u16
    ensures { result ≡ row_start (width_of x) (cursor_of x) }
{
    let at = cursor_of(x);
    at - column_of(x.wide, at)
}

// The first cell of a text that is sent: the segment's, or that of the cursor's row.
pub fn text_start(x: Screen, segment: bool) -> u16
    ensures { result ≡ text_start x segment }
{
    if segment {
        segment_start(x)
    } else {
        row_start(x)
    }
}

#[tactic(auto, unfolding(rules::specs::State::with_cursor))]
pub fn with_cursor(x: Screen, n: u16) -> Screen
    ensures { result ≡ with_cursor x n }
{
    if x.active == 0 {
        Screen { cursor0: n, ..x }
    } else {
        Screen { cursor1: n, ..x }
    }
}

pub fn activated(x: Screen, n: u8) -> Screen
    ensures { result ≡ activated x n }
{
    Screen { active: n, ..x }
}
