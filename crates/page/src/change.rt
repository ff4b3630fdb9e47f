// Changes of cells: fills, and the one shift, of cells and of rows.
ghost use Rattle.std.specs.Prelude.{◌≡◌, true, false, ◌⊎◌, ◌+◌, ◌-◌, ◌*◌, ◌<◌, ◌≤◌, length};
ghost use Rattle.rules.specs.Row.{Width, columns};
ghost use Rattle.rules.specs.Cell.{space};
ghost use Rattle.rules.specs.Change.{within, fill_cell, filled, shift_left, shift_right, shifted, edit_shifted, rows_shifted, column_filled};

use crate::cell::{SPACE, is_guarded};
use crate::search::{edit_end, first_cell};

// What a fill makes of a cell.
fn filled_cell(protect: bool, v: u16, value: u16) -> u16
    ensures { result ≡ fill_cell protect value v }
{
    if is_guarded(protect, v) { v } else { value }
}

fn fill_open(part: &mut [u16], value: u16)
    ensures { part.new ≡ filled true value part.old }
{
    for i in 0..part.len() {
        part[i] = filled_cell(true, part[i], value);
    }
}

// `count` cells from `from` on become `value`. Where the count is known when the program is built, this is a few stores; the library's `fill`, tried
// in its place, took half as long again over fills of up to 79 cells.
fn put_cells(part: &mut [u16], from: usize, count: usize, value: u16)
    requires { from + count ≤ length part.old }
    ensures { part.new ≡ within from (from + count) (filled false value) part.old }
{
    for i in 0..count {
        part[from + i] = value;
    }
}

// Up to 32 cells: sixteen from the front and sixteen up to the end, which may overlap.
fn fill_few(part: &mut [u16], value: u16)
    requires { length part.old ≤ 32 }
    ensures { part.new ≡ filled false value part.old }
{
    let size = part.len();
    if size < 16 {
        put_cells(part, 0, size, value);
        return;
    }
    put_cells(part, 0, 16, value);
    put_cells(part, size - 16, 16, value);
}

// Blocks of 32 cells, the last of which ends where the part ends and may overlap the one before: no cells are left over.
fn fill_all(part: &mut [u16], value: u16)
    ensures { part.new ≡ filled false value part.old }
{
    let size = part.len();
    if size < 32 {
        fill_few(part, value);
        return;
    }
    let last = size - 32;
    let mut i = 0;
    while i < last {
        put_cells(part, i, 32, value);
        i += 32;
    }
    put_cells(part, last, 32, value);
}

fn fill(part: &mut [u16], protect: bool, value: u16)
    ensures { part.new ≡ filled protect value part.old }
{
    if protect {
        fill_open(part, value);
    } else {
        fill_all(part, value);
    }
}

// The open cells `from` up to `to` become `value`; with `protect` false, all of them.
pub fn fill_cells(page: &mut [u16], protect: bool, from: usize, to: usize, value: u16)
    requires { (from ≤ to) × (to ≤ length page.old) }
    ensures { page.new ≡ within from to (filled protect value) page.old }
{
    fill(&mut page[from..to], protect, value);
}

// The same for one cell.
pub fn fill_cell(page: &mut [u16], protect: bool, at: usize, value: u16)
    requires { at < length page.old }
    ensures { page.new ≡ within at (at + 1) (filled protect value) page.old }
{
    page[at] = filled_cell(protect, page[at], value);
}

// The open cells of a column in the rows `top` up to `bottom`.
pub fn fill_column(
    page: &mut [u16],
    wide: bool,
    protect: bool,
    top: usize,
    bottom: usize,
    column: usize,
    value: u16,
)
    requires { (top ≤ bottom) × ((bottom ≤ 24) × ((column < columns wide) × (length page.old ≡ 24 * columns wide))) }
    ensures { page.new ≡ column_filled (columns wide) protect value column (bottom - top) top page.old }
{
    for row in top..bottom {
        fill_cell(page, protect, first_cell(wide, row) + column, value);
    }
}

fn shift_left(part: &mut [u16], count: usize, value: u16)
    requires { count ≤ length part.old }
    ensures { part.new ≡ shift_left count value part.old }
{
    let end = part.len() - count;
    let mut i = 0;
    while i < end {
        part[i] = part[i + count];
        i += 1;
    }
    put_cells(part, end, count, value);
}

fn shift_right(part: &mut [u16], count: usize, value: u16)
    requires { count ≤ length part.old }
    ensures { part.new ≡ shift_right count value part.old }
{
    let mut i = part.len() - count;
    while 0 < i {
        i -= 1;
        part[i + count] = part[i];
    }
    put_cells(part, 0, count, value);
}

// The part is empty, or has as many cells.
fn shift_by(part: &mut [u16], right: bool, count: usize, value: u16)
    requires { (length part.old ≡ 0) ⊎ (count ≤ length part.old) }
    ensures { part.new ≡ shifted right count value part.old }
{
    if part.len() < count {
        return;
    }
    if right {
        shift_right(part, count, value);
    } else {
        shift_left(part, count, value);
    }
}

// The one shift, by a cell or by a row: every part that moves is lent to it. Each count is a number that is known when the program is built, and the
// loops are of this form, so that these become block moves: with `for`, by `copy_within`, or with the count from the caller, an insert takes two
// fifths more instructions.
fn shift(part: &mut [u16], right: bool, count: usize, value: u16)
    requires { ((count ≡ 1) ⊎ Width count) × ((length part.old ≡ 0) ⊎ (count ≤ length part.old)) }
    ensures { part.new ≡ shifted right count value part.old }
{
    match count {
        1 => shift_by(part, right, 1, value),
        80 => shift_by(part, right, 80, value),
        _ => shift_by(part, right, 132, value),
    }
}

// The edit run at a cell moves by one cell: right for an insert, left for a delete; `value` comes in.
pub fn shift_edit_run(
    page: &mut [u16],
    wide: bool,
    protect: bool,
    right: bool,
    at: usize,
    value: u16,
)
    requires { (length page.old ≡ 24 * columns wide) × (at < 24 * columns wide) }
    ensures { page.new ≡ edit_shifted (columns wide) protect right value at page.old }
{
    let end = edit_end(page, wide, protect, at);
    shift(&mut page[at..end], right, 1, value);
}

// The rows `top` up to `bottom` move by one row: scrolling both ways, row insert, row delete.
pub fn shift_rows(page: &mut [u16], wide: bool, down: bool, top: usize, bottom: usize)
    requires { (top ≤ bottom) × ((bottom ≤ 24) × (length page.old ≡ 24 * columns wide)) }
    ensures { page.new ≡ rows_shifted (columns wide) down top bottom page.old }
{
    let part = &mut page[first_cell(wide, top)..first_cell(wide, bottom)];
    if wide {
        shift(part, down, 132, SPACE);
    } else {
        shift(part, down, 80, SPACE);
    }
}
