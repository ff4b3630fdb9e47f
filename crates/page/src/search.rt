// Searches: one loop up and one down over the cells, and the same over the tab stops.
ghost use Rattle.std.specs.Prelude.{◌≡◌, true, false, ℕ, ◌+◌, ◌-◌, ◌*◌, ◌/◌, ◌%◌, ◌<◌, ◌≤◌, eqb, length, get_or, MatchOption};
ghost use Rattle.rules.specs.Cell.{either};
ghost use Rattle.rules.specs.Row.{columns, row_end};
ghost use Rattle.rules.specs.Fields.{page_width};
ghost use Rattle.rules.specs.Search.{guarded_at, sought_at, first_in, last_in, around};
ghost use Rattle.rules.specs.Search.{around_back, settled, previous_open, next_field, previous_field};
ghost use Rattle.rules.specs.Search.{next_tab, previous_tab, edit_end};

use crate::cell::is_guarded;
use rules::Sought;

pub fn is_guarded_at(page: &[u16], protect: bool, at: usize) -> bool
    requires { at < length page.now }
    ensures { result ≡ get_or (guarded_at protect page.now) at false }
{
    is_guarded(protect, page[at])
}

// Whether the cell is the first of the segment, or of the page, or follows a guarded cell.
fn is_start(page: &[u16], protect: bool, first: usize, at: usize) -> bool
    requires { at < length page.now }
    ensures { result ≡ either (eqb at first) (either (eqb at 0) (get_or (guarded_at protect page.now) (at - 1) false)) }
{
    at == first || (at == 0 || is_guarded_at(page, protect, at - 1))
}

fn is_field_start(page: &[u16], protect: bool, first: usize, at: usize) -> bool
    requires { at < length page.now }
    ensures { result ≡ get_or (sought_at (Sought.FieldStart first) (guarded_at protect page.now)) at false }
{
    !is_guarded_at(page, protect, at) && is_start(page, protect, first, at)
}

// Whether the cell is what is looked for.
fn is_sought(page: &[u16], protect: bool, sought: Sought, at: usize) -> bool
    requires { at < length page.now }
    ensures { result ≡ get_or (sought_at sought (guarded_at protect page.now)) at false }
{
    match sought {
        Sought::Open => !is_guarded_at(page, protect, at),
        Sought::Guarded => is_guarded_at(page, protect, at),
        Sought::FieldStart(first) => is_field_start(page, protect, first, at),
    }
}

// The first cell sought from `from` up to `end`, or `end`: what an edit run, a row and a field take where there is none.
pub fn first_sought(page: &[u16], protect: bool, sought: Sought, from: usize, end: usize) -> usize
    requires { (from ≤ end) × (end ≤ length page.now) }
    ensures { result ≡ first_in (sought_at sought (guarded_at protect page.now)) from end }
{
    for at in from..end {
        if is_sought(page, protect, sought, at) {
            return at;
        }
    }
    end
}

// The last cell sought from `first` up to `end`, or `none`: each caller has a cell of its own for that.
fn last_sought(
    page: &[u16],
    protect: bool,
    sought: Sought,
    first: usize,
    end: usize,
    none: usize,
) -> usize
    requires { (first ≤ end) × (end ≤ length page.now) }
    ensures { result ≡ last_in none (sought_at sought (guarded_at protect page.now)) first end }
{
    for at in (first..end).rev() {
        if is_sought(page, protect, sought, at) {
            return at;
        }
    }
    none
}

// The first cell sought at or after `from`, wrapping at `end` to `first`; `first` where there is none.
fn sought_around(
    page: &[u16],
    protect: bool,
    sought: Sought,
    first: usize,
    end: usize,
    from: usize,
) -> usize
    requires { (first ≤ end) × ((from ≤ end) × (end ≤ length page.now)) }
    ensures { result ≡ around (sought_at sought (guarded_at protect page.now)) first end from }
{
    let after = first_sought(page, protect, sought, from, end);
    if after < end {
        return after;
    }
    let wrapped = first_sought(page, protect, sought, first, end);
    if wrapped < end { wrapped } else { first }
}

// The last cell sought before `from`, wrapping at `first` to `end`; `first` where there is none.
fn sought_back(
    page: &[u16],
    protect: bool,
    sought: Sought,
    first: usize,
    end: usize,
    from: usize,
) -> usize
    requires { (first ≤ from) × ((from ≤ end) × (end ≤ length page.now)) }
    ensures { result ≡ around_back (sought_at sought (guarded_at protect page.now)) first end from }
{
    let before = last_sought(page, protect, sought, first, from, end);
    if before < end {
        return before;
    }
    last_sought(page, protect, sought, first, end, first)
}

fn both(a: bool, b: bool) -> bool
    ensures { result ≡ true → (a ≡ true) × (b ≡ true) }
{
    if a { b } else { false }
}

// Whether the eight cells from `at` on are guarded: looked at together.
fn are_guarded(page: &[u16], protect: bool, at: usize) -> bool
    requires { at + 8 ≤ length page.now }
    ensures { result ≡ true → (j : ℕ) → j < 8 → get_or (guarded_at protect page.now) (at + j) false ≡ true }
{
    let mut all = true;
    for i in 0..8 {
        all = both(all, is_guarded_at(page, protect, at + i));
    }
    all
}

// A cell near the first open one from `from` up to `end`: guarded cells are passed by eights.
fn near_open(page: &[u16], protect: bool, from: usize, end: usize) -> usize
    requires { (from ≤ end) × (end ≤ length page.now) }
    ensures { (result ≤ end)
        × (first_in (sought_at Sought.Open (guarded_at protect page.now)) from end
        ≡ first_in (sought_at Sought.Open (guarded_at protect page.now)) result end) }
{
    // A `for` with steps of eight would not stop before the last few cells.
    let mut at = from;
    while at + 8 <= end {
        if !are_guarded(page, protect, at) {
            return at;
        }
        at += 8;
    }
    at
}

// Settle from a cell of the segment `first` up to `end`.
pub fn settle(page: &[u16], protect: bool, first: usize, end: usize, from: usize) -> usize
    requires { (first ≤ end) × ((from ≤ end) × (end ≤ length page.now)) }
    ensures { result ≡ settled (guarded_at protect page.now) first end from }
{
    if protect {
        let near = near_open(page, protect, from, end);
        return sought_around(page, protect, Sought::Open, first, end, near);
    }
    if from < end { from } else { first }
}

// 08h: the previous open cell of the segment, or `at`.
pub fn previous_open(page: &[u16], protect: bool, first: usize, at: usize) -> usize
    requires { (first ≤ at) × (at ≤ length page.now) }
    ensures { result ≡ previous_open (guarded_at protect page.now) first at }
{
    last_sought(page, protect, Sought::Open, first, at, at)
}

// 09h with protect on: the next field start, wrapping.
pub fn next_field(page: &[u16], protect: bool, first: usize, end: usize, at: usize) -> usize
    requires { (first ≤ at) × ((at < end) × (end ≤ length page.now)) }
    ensures { result ≡ next_field (guarded_at protect page.now) first end at }
{
    sought_around(page, protect, Sought::FieldStart(first), first, end, at + 1)
}

// ESC I with protect on: the previous field start, wrapping.
pub fn previous_field(page: &[u16], protect: bool, first: usize, end: usize, at: usize) -> usize
    requires { (first ≤ at) × ((at < end) × (end ≤ length page.now)) }
    ensures { result ≡ previous_field (guarded_at protect page.now) first end at }
{
    sought_back(page, protect, Sought::FieldStart(first), first, end, at)
}

// How many columns a page has, wide or not. Here in usize, as slices are indexed; state::width has these in u16, as cells are kept in a state.
#[tactic(auto, unfolding(rules::specs::Row::columns))]
pub fn columns(wide: bool) -> usize
    ensures { result ≡ columns wide }
{
    if wide { 132 } else { 80 }
}

// Whether a page of so many cells is wide; `None`: no page has so many.
pub fn is_wide(cells: usize) -> Option<bool>
    ensures { MatchOption result (page_width cells ≡ 0) (λ wide. page_width cells ≡ columns wide) }
{
    match cells {
        1920 => Some(false),
        3168 => Some(true),
        _ => None,
    }
}

// A cell's row and its column. Each division is by a number that is known when the program is built: these are fast.
#[tactic(auto, unfolding(rules::specs::Row::columns))]
pub fn row_of(wide: bool, at: usize) -> usize
    ensures { result ≡ at / columns wide }
{
    if wide { at / 132 } else { at / 80 }
}

#[tactic(auto, unfolding(rules::specs::Row::columns))]
pub fn column_of(wide: bool, at: usize) -> usize
    ensures { result ≡ at % columns wide }
{
    if wide { at % 132 } else { at % 80 }
}

// The first cell of a row; of row 24, the end of the page.
#[tactic(auto, unfolding(rules::specs::Row::columns))]
pub fn first_cell(wide: bool, row: usize) -> usize
    requires { row ≤ 24 }
    ensures { result ≡ row * columns wide }
{
    if wide { row * 132 } else { row * 80 }
}

// The end of a cell's row.
pub fn row_end(wide: bool, at: usize) -> usize
    requires { at < 24 * columns wide }
    ensures { result ≡ row_end (columns wide) at }
{
    first_cell(wide, row_of(wide, at) + 1)
}

// The end of the edit run: the next guarded cell, or the end of the row.
pub fn edit_end(page: &[u16], wide: bool, protect: bool, at: usize) -> usize
    requires { (length page.now ≡ 24 * columns wide) × (at < 24 * columns wide) }
    ensures { result ≡ edit_end (columns wide) (guarded_at protect page.now) at }
{
    first_sought(page, protect, Sought::Guarded, at, row_end(wide, at))
}

// 09h with protect off: the next tab stop to the right, or `column`.
pub fn next_tab(tabs: [bool; 132], wide: bool, column: usize) -> usize
    requires { column < columns wide }
    ensures { result ≡ next_tab (columns wide) tabs column }
{
    for stop in column + 1..columns(wide) {
        if tabs[stop] {
            return stop;
        }
    }
    column
}

// ESC I with protect off: the previous tab stop, or column 1.
pub fn previous_tab(tabs: [bool; 132], column: usize) -> usize
    requires { column ≤ 132 }
    ensures { result ≡ previous_tab tabs column }
{
    for stop in (0..column).rev() {
        if tabs[stop] {
            return stop;
        }
    }
    0
}
