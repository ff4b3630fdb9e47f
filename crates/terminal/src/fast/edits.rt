// What the fast path edits and clears: a plan with no core in it.
ghost use Rattle.std.specs.Prelude.{◌≡◌, ℕ, ◌<◌, ◌≤◌, Bool, List, IfSome};
ghost use Rattle.rules.specs.Cell.{pick};
ghost use Rattle.rules.specs.Row.{height, columns as columns_of, wide_cells, row_end};
ghost use Rattle.rules.specs.declared.Write.TheVariants as Write;
ghost use Rattle.terminal.specs.FastPath.{Fits, blank, Edits};

use crate::fast::Ground;
use crate::fast::moves::line_start;
use page::cell::{NULL, SPACE};
use page::search::is_guarded_at;
use rules::Write;
use state::width::{columns, row_of};

// What is written, and the cursor after it.
#[derive(Clone, Copy)]
pub struct Act {
    pub write: Write,
    pub at: usize,
}

// ESC Q and ESC W.
fn edit_cell(page: &[u16], ground: Ground, at: usize, right: bool) -> Option<Act>
    requires { Fits ground page.now × (at < ground.end) }
    ensures { (b : ℕ) → b ≡ pick right 0x51 0x57
        → IfSome result (λ a. (a.at < ground.end) × Edits ground page.now at b a.write a.at) }
{
    if is_guarded_at(page, ground.protect, at) {
        return None;
    }
    let w = Write::Edit {
        right,
        at: at as u16,
        value: SPACE,
    };
    Some(Act { write: w, at })
}

// ESC E and ESC R.
fn edit_row(ground: Ground, at: usize, down: bool) -> Option<Act>
    requires { (at < ground.end) × ((ground.end ≤ wide_cells) × (ground.bottom ≤ height)) }
    ensures { (p : List ℕ) (b : ℕ) → b ≡ pick down 0x45 0x52
        → IfSome result (λ a. (a.at < ground.end) × Edits ground p at b a.write a.at) }
{
    if ground.protect {
        return None;
    }
    let w = Write::Rows {
        down,
        top: row_of(ground.wide, at as u16),
        bottom: ground.bottom as u16,
    };
    Some(Act {
        write: w,
        at: line_start(ground.wide, at),
    })
}

// ESC j in the top row.
fn reverse(ground: Ground, at: usize) -> Option<Act>
    requires { (at < ground.end)
        × ((ground.end ≤ wide_cells) × ((ground.home ≤ ground.end) × ((ground.top ≤ height) × (ground.bottom ≤ height)))) }
    ensures { (p : List ℕ) → IfSome result (λ a. (a.at < ground.end) × Edits ground p at 0x6a a.write a.at) }
{
    if ground.protect {
        return None;
    }
    if ground.home + columns(ground.wide) as usize <= at {
        return None;
    }
    let w = Write::Rows {
        down: true,
        top: ground.top as u16,
        bottom: ground.bottom as u16,
    };
    Some(Act { write: w, at })
}

// The open cells from the cursor up to `to`.
fn clear(at: usize, to: usize, value: u16) -> Act
    requires { (at ≤ wide_cells) × (to ≤ wide_cells) }
    ensures { result ≡ record { write = Write.Fill at to value; at = at } }
{
    let w = Write::Fill {
        from: at as u16,
        to: to as u16,
        value,
    };
    Act { write: w, at }
}

// Those of the segment, whose first cell is open.
fn clear_segment(page: &[u16], ground: Ground, value: u16) -> Option<Act>
    requires { Fits ground page.now }
    ensures { (at b : ℕ) (spaces : Bool) → value ≡ blank spaces → b ≡ pick spaces 0x3b 0x3a
        → IfSome result (λ a. (a.at < ground.end) × Edits ground page.now at b a.write a.at) }
{
    if is_guarded_at(page, ground.protect, ground.home) {
        return None;
    }
    Some(clear(ground.home, ground.end, value))
}

// The end of the cursor's row.
fn line_end(wide: bool, at: usize) -> usize
    requires { at < wide_cells }
    ensures { result ≡ row_end (columns_of wide) at }
{
    line_start(wide, at) + columns(wide) as usize
}

// The byte b after ESC.
pub(crate) fn edit(page: &[u16], ground: Ground, at: usize, b: u8) -> Option<Act>
    requires { Fits ground page.now × (at < ground.end) }
    ensures { IfSome result (λ a. (a.at < ground.end) × Edits ground page.now at b a.write a.at) }
{
    match b {
        0x3a => clear_segment(page, ground, NULL),
        0x3b => clear_segment(page, ground, SPACE),
        0x45 => edit_row(ground, at, true),
        0x51 => edit_cell(page, ground, at, true),
        0x52 => edit_row(ground, at, false),
        0x54 => Some(clear(at, line_end(ground.wide, at), SPACE)),
        0x57 => edit_cell(page, ground, at, false),
        0x59 => Some(clear(at, ground.end, SPACE)),
        0x6a => reverse(ground, at),
        0x74 => Some(clear(at, line_end(ground.wide, at), NULL)),
        0x79 => Some(clear(at, ground.end, NULL)),
        _ => None,
    }
}
