// Where the fast path moves the cursor: ESC =, the moves of one byte, and the scrolls of 0Ah and 1Fh.
ghost use Rattle.std.specs.Prelude.{◌≡◌, ℕ, ◌+◌, ◌-◌, ◌*◌, ◌<◌, ◌≤◌, true, false, List, length, slice_index, IfSome};
ghost use Rattle.rules.specs.Cell.{both, among as among_of};
ghost use Rattle.rules.specs.Row.{height, columns as columns_of, addressed, row_start, wide_cells};
ghost use Rattle.terminal.specs.FastPath.{Fits, OpenAt, Addressed, Outside, Goes, Rolled};

use crate::fast::Ground;
use page::search::{is_guarded_at, next_field};
use state::logic::among;
use state::width::{cells, column_of, columns};

// The cell of a row and a column code.
fn cell_at(ground: Ground, row: u8, column: u8) -> usize
    requires { (ground.home ≤ wide_cells) × ((0x20 ≤ row) × (0x20 ≤ column)) }
    ensures { result ≡ ground.home + (row - 0x20) * columns_of ground.wide + (column - 0x20) }
{
    ground.home + cells(ground.wide, (row - 0x20) as u16) as usize + (column - 0x20) as usize
}

// The cell of an ESC = whose ESC is byte i, if it is an open one of the segment.
pub(crate) fn address(page: &[u16], ground: Ground, input: &[u8], i: usize) -> Option<usize>
    requires { Fits ground page.now × ((i < length input.now) × (slice_index input.now i ≡ 0x1b)) }
    ensures { IfSome result (λ k. (k < ground.end)
        × ((i + 4 ≤ length input.now) × (Addressed ground input.now i k × OpenAt ground page.now k))) }
{
    if input.len() <= i + 3 || input[i + 1] != 0x3d {
        return None;
    }
    let row = input[i + 2];
    let column = input[i + 3];
    if row < 0x20 || column < 0x20 || 0x6f < column {
        return None;
    }
    let k = cell_at(ground, row, column);
    if ground.end <= k || is_guarded_at(page, ground.protect, k) {
        return None;
    }
    Some(k)
}

// Whether a row and a column code are of the segment.
fn is_addressed(ground: Ground, row: u8, column: u8) -> bool
    requires { (ground.top ≤ ground.bottom) × (ground.bottom ≤ height) }
    ensures { result ≡ both (among_of 0x20 (ground.bottom - ground.top) row) (among_of 0x20 addressed column) }
{
    among(0x20, (ground.bottom - ground.top) as u8, row) && among(0x20, 80, column)
}

// Whether the ESC at byte i begins an ESC = out of the segment, and that is not to stop the path.
pub(crate) fn is_outside(ground: Ground, input: &[u8], i: usize, stop: bool) -> bool
    requires { (ground.top ≤ ground.bottom) × ((ground.bottom ≤ height) × ((i < length input.now) × (slice_index input.now i ≡ 0x1b))) }
    ensures { result ≡ true → (stop ≡ false) × ((i + 4 ≤ length input.now) × Outside ground input.now i) }
{
    !stop
        && i + 3 < input.len()
        && input[i + 1] == 0x3d
        && input[i + 2] < 128
        && input[i + 3] < 128
        && !is_addressed(ground, input[i + 2], input[i + 3])
}

// The first cell of a cell's row.
pub(crate) fn line_start(wide: bool, at: usize) -> usize
    requires { at < wide_cells }
    ensures { result ≡ row_start (columns_of wide) at }
{
    at - column_of(wide, at as u16) as usize
}

// 08h: the cell before, or the segment's first one again.
fn back(ground: Ground, at: usize) -> usize
    ensures { (p : List ℕ) → Goes ground p at 0x08 result }
{
    if ground.home < at {
        return at - 1;
    }
    at
}

// 0Bh: the cell above, from the top row that of the bottom one.
fn up(ground: Ground, at: usize) -> usize
    requires { (ground.home ≤ wide_cells) × ((at < wide_cells) × (columns_of ground.wide ≤ ground.end)) }
    ensures { (p : List ℕ) → Goes ground p at 0x0b result }
{
    let width = columns(ground.wide) as usize;
    if ground.home + width <= at {
        return at - width;
    }
    ground.end - width + column_of(ground.wide, at as u16) as usize
}

// 0Ch: the next cell, from the last one the first.
fn right(ground: Ground, at: usize) -> usize
    requires { (at < ground.end) × (at < wide_cells) }
    ensures { (p : List ℕ) → Goes ground p at 0x0c result }
{
    if at + 1 < ground.end {
        return at + 1;
    }
    ground.home
}

// The cell that a byte moves the cursor to, with no scroll: 08h, 0Ah, 0Bh, 0Ch, 0Dh, 1Eh, 1Fh.
fn goal(ground: Ground, at: usize, b: u8) -> Option<usize>
    requires { (at < ground.end) × ((ground.end ≤ wide_cells) × ((ground.home ≤ wide_cells) × (columns_of ground.wide ≤ ground.end))) }
    ensures { (p : List ℕ) → IfSome result (λ k. Goes ground p at b k) }
{
    let width = columns(ground.wide) as usize;
    match b {
        0x08 => Some(back(ground, at)),
        0x0a => Some(at + width),
        0x0b => Some(up(ground, at)),
        0x0c => Some(right(ground, at)),
        0x0d => Some(line_start(ground.wide, at)),
        0x1e => Some(ground.home),
        0x1f => Some(line_start(ground.wide, at) + width),
        _ => None,
    }
}

// The same, and 09h with protect mode on.
fn goal_on(page: &[u16], ground: Ground, at: usize, b: u8) -> Option<usize>
    requires { Fits ground page.now × (at < ground.end) }
    ensures { IfSome result (λ k. Goes ground page.now at b k) }
{
    if b != 0x09 {
        return goal(ground, at, b);
    }
    if !ground.protect || at < ground.home {
        return None;
    }
    Some(next_field(page, true, ground.home, ground.end, at))
}

// That cell, if it is an open one of the segment.
pub(crate) fn open_goal(page: &[u16], ground: Ground, at: usize, b: u8) -> Option<usize>
    requires { Fits ground page.now × (at < ground.end) }
    ensures { IfSome result (λ k. (k < ground.end) × (Goes ground page.now at b k × OpenAt ground page.now k)) }
{
    let k = goal_on(page, ground, at, b)?;
    if ground.end <= k || is_guarded_at(page, ground.protect, k) {
        return None;
    }
    Some(k)
}

// A cell, if it is one of the segment's last row.
fn in_last_row(ground: Ground, k: usize) -> Option<usize>
    requires { k < wide_cells }
    ensures { IfSome result (λ m. (m ≡ k) × (ground.end ≤ k + columns_of ground.wide)) }
{
    if k + (columns(ground.wide) as usize) < ground.end {
        return None;
    }
    Some(k)
}

// The cell where 0Ah or 1Fh leaves the cursor if it scrolls the segment.
pub(crate) fn roll(ground: Ground, at: usize, b: u8) -> Option<usize>
    requires { (at < ground.end) × (at < wide_cells) }
    ensures { IfSome result (λ k. (k < ground.end) × Rolled ground at b k) }
{
    if !ground.rolls {
        return None;
    }
    match b {
        0x0a => in_last_row(ground, at),
        0x1f => in_last_row(ground, line_start(ground.wide, at)),
        _ => None,
    }
}
