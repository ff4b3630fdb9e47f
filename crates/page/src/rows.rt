// The row list: for each row the number of its open cells, and the column of the first. Settling by it skips the rows that have none.
ghost use Rattle.std.specs.Prelude.{◌≡◌, ◌+◌, ◌-◌, ◌*◌, ◌/◌, ◌%◌, ◌<◌, ◌≤◌, [], ◌∷◌, length, set};
ghost use Rattle.rules.specs.Row.{columns, row_end};
ghost use Rattle.rules.specs.Search.{guarded_at, others, first_in, settled};
ghost use Rattle.rules.specs.Cell.{same as same_list};
ghost use Rattle.rules.specs.RowList.{open_count, first_column, row_list};
ghost use Rattle.page.specs.RowList.{row_at, AllBut, FirstRow};

use crate::cell::is_guarded;
use crate::search::{first_cell, first_sought, row_end, row_of};
use rules::Sought;

fn open_cell(protect: bool, v: u16) -> u16
    ensures { result ≡ open_count (guarded_at protect (v ∷ [])) }
{
    if is_guarded(protect, v) { 0 } else { 1 }
}

fn open_count(part: &[u16], protect: bool) -> u16
    requires { length part.now ≤ 3168 }
    ensures { result ≡ open_count (guarded_at protect part.now) }
{
    let mut n: u16 = 0;
    for v in part {
        n += open_cell(protect, *v);
    }
    n
}

// The column of the first open cell of a row, from 1, or 0; `count` of its cells are open.
fn first_column(part: &[u16], protect: bool, count: u16) -> u16
    requires { (length part.now ≤ 3168) × (count ≡ open_count (guarded_at protect part.now)) }
    ensures { result ≡ first_column (guarded_at protect part.now) }
{
    if count == 0 {
        return 0;
    }
    first_sought(part, protect, Sought::Open, 0, part.len()) as u16 + 1
}

// The numbers of one row.
fn count_row(rows: &mut [u16], page: &[u16], wide: bool, protect: bool, row: usize)
    requires { (length page.now ≡ 24 * columns wide) × ((length rows.old ≡ 48) × (row < 24)) }
    ensures { rows.new
        ≡ set (set rows.old (2 * row) (open_count (row_at (columns wide) (guarded_at protect page.now) row))) (2 * row + 1)
        (first_column (row_at (columns wide) (guarded_at protect page.now) row)) }
{
    let from = first_cell(wide, row);
    let to = first_cell(wide, row + 1);
    let count = open_count(&page[from..to], protect);
    let first = first_column(&page[from..to], protect, count);
    rows[2 * row] = count;
    rows[2 * row + 1] = first;
}

// The numbers of the rows `top` up to `bottom`, where those of the others are right.
pub fn recount(rows: &mut [u16], page: &[u16], wide: bool, protect: bool, top: usize, bottom: usize)
    requires { (length page.now ≡ 24 * columns wide)
        × ((length rows.old ≡ 48) × ((top ≤ bottom) × ((bottom ≤ 24) × AllBut (columns wide) (guarded_at protect page.now) rows.old top bottom))) }
    ensures { rows.new ≡ row_list (columns wide) (guarded_at protect page.now) }
{
    for row in top..bottom {
        count_row(rows, page, wide, protect, row);
    }
}

// All of it, whatever stood there.
pub fn rebuild(rows: &mut [u16], page: &[u16], wide: bool, protect: bool)
    requires { (length page.now ≡ 24 * columns wide) × (length rows.old ≡ 48) }
    ensures { rows.new ≡ row_list (columns wide) (guarded_at protect page.now) }
{
    recount(rows, page, wide, protect, 0, 24);
}

// Whether a list is that of the page.
pub fn is_row_list(rows: &[u16], page: &[u16], wide: bool, protect: bool) -> bool
    requires { length page.now ≡ 24 * columns wide }
    ensures { result ≡ same_list rows.now (row_list (columns wide) (guarded_at protect page.now)) }
{
    // A list of another length is refused before the page is counted.
    if rows.len() != 48 {
        return false;
    }
    let mut right: [u16; 48] = [0; 48];
    rebuild(&mut right, page, wide, protect);
    rows == right.as_slice()
}

// The first of the rows `from` up to `bottom` that has an open cell, or `bottom`.
fn row_with_room(rows: &[u16], from: usize, bottom: usize) -> usize
    requires { (from ≤ bottom) × ((bottom ≤ 24) × (length rows.now ≡ 48)) }
    ensures { FirstRow rows.now from bottom result }
{
    for row in from..bottom {
        if rows[2 * row] != 0 {
            return row;
        }
    }
    bottom
}

// The first open cell from `from` up to the end of its row, or that end.
fn first_in_row(page: &[u16], rows: &[u16], wide: bool, protect: bool, from: usize) -> usize
    requires { (length page.now ≡ 24 * columns wide)
        × ((rows.now ≡ row_list (columns wide) (guarded_at protect page.now)) × (from < 24 * columns wide)) }
    ensures { result ≡ first_in (others (guarded_at protect page.now)) from (row_end (columns wide) from) }
{
    let stop = row_end(wide, from);
    let row = row_of(wide, from);
    if rows[2 * row] == 0 {
        return stop;
    }
    let first = first_cell(wide, row) + rows[2 * row + 1] as usize - 1;
    if from <= first {
        return first;
    }
    first_sought(page, protect, Sought::Open, from, stop)
}

// The first open cell from `from` up to the end of the row before `bottom`, or that end.
fn first_open(
    page: &[u16],
    rows: &[u16],
    wide: bool,
    protect: bool,
    from: usize,
    bottom: usize,
) -> usize
    requires { (length page.now ≡ 24 * columns wide)
        × ((rows.now ≡ row_list (columns wide) (guarded_at protect page.now)) × ((from < bottom * columns wide) × (bottom ≤ 24))) }
    ensures { result ≡ first_in (others (guarded_at protect page.now)) from (bottom * columns wide) }
{
    let here = first_in_row(page, rows, wide, protect, from);
    if here < row_end(wide, from) {
        return here;
    }
    let next = row_of(wide, from) + 1;
    let row = row_with_room(rows, next, bottom);
    if row < bottom {
        first_cell(wide, row) + rows[2 * row + 1] as usize - 1
    } else {
        first_cell(wide, bottom)
    }
}

// Settle from a cell of the segment `first` up to `end`, by the list.
pub fn settle_rows(
    page: &[u16],
    rows: &[u16],
    wide: bool,
    protect: bool,
    first: usize,
    end: usize,
    from: usize,
) -> usize
    requires { (length page.now ≡ 24 * columns wide)
        × ((rows.now ≡ row_list (columns wide) (guarded_at protect page.now))
        × ((first < end) × ((from < end) × ((end ≤ 24 * columns wide) × (end / columns wide * columns wide ≡ end))))) }
    ensures { result ≡ settled (guarded_at protect page.now) first end from }
{
    let bottom = row_of(wide, end);
    let after = first_open(page, rows, wide, protect, from, bottom);
    if after < end {
        return after;
    }
    let wrapped = first_open(page, rows, wide, protect, first, bottom);
    if wrapped < end { wrapped } else { first }
}
