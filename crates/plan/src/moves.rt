// Where the cursor may go.
ghost use Rattle.std.specs.Prelude.{◌≡◌, ◌+◌, ◌-◌, ◌*◌, ◌<◌, ◌≤◌, length};
ghost use Rattle.rules.specs.Row.{columns, wide_cells};
ghost use Rattle.rules.specs.Cell.{among as among_of};
ghost use Rattle.rules.specs.Search.{guarded_at, previous_open};
ghost use Rattle.rules.specs.State.{Inside, page_length, segment_top, segment_bottom, segment_start, cursor_of};
ghost use Rattle.rules.specs.Plan.{scroll as scroll_of, scrolls as scrolls_of, next_cell, at_top, up_cell};
ghost use Rattle.rules.specs.Plan.{reverse_plan, down_plan, tab_cell, back_tab_cell};
ghost use Rattle.rules.specs.Plan.{address_plan, move_plan};

use super::forms::{refusing, settling, writing};
use page::search;
use rules::{Answer, Core, Land, Modes, Move, Plan, Screen, Write};
use state::core_parts::with_screen;
use state::screen::{
    cursor_column, cursor_of, row_start, segment_bottom, segment_end, segment_start, segment_top,
    width_of,
};
use state::width::{ADDRESSED, cells, column_of};

// One of the n numbers from `first` on.
pub fn among(first: u16, n: u16, v: u16) -> bool
    requires { first + n < 65536 }
    ensures { result ≡ among_of first n v }
{
    first <= v && v < first + n
}

// The rows of the active segment move by one.
pub fn scroll(x: Screen, down: bool) -> Write
    ensures { result ≡ scroll_of x down }
{
    Write::Rows {
        down,
        top: segment_top(x),
        bottom: segment_bottom(x),
    }
}

pub fn scrolls(m: Modes) -> bool
    ensures { result ≡ scrolls_of m }
{
    m.autoscroll && !m.protect
}

fn next_cell(x: Screen) -> u16
    requires { Inside x }
    ensures { result ≡ next_cell x }
{
    let at = cursor_of(x);
    if at + 1 < segment_end(x) {
        at + 1
    } else {
        segment_start(x)
    }
}

fn at_top(x: Screen) -> bool
    requires { Inside x }
    ensures { result ≡ at_top x }
{
    cursor_of(x) < segment_start(x) + width_of(x)
}

fn up_cell(x: Screen) -> u16
    requires { Inside x }
    ensures { result ≡ up_cell x }
{
    if at_top(x) {
        segment_end(x) - width_of(x) + cursor_column(x)
    } else {
        cursor_of(x) - width_of(x)
    }
}

fn reverse_plan(core: Core) -> Plan
    requires { Inside core.screen }
    ensures { result ≡ reverse_plan core }
{
    let x = core.screen;
    let at = cursor_of(x);
    if !at_top(x) {
        return settling(core, at - width_of(x));
    }
    if core.modes.protect {
        return settling(core, at);
    }
    writing(core, scroll(x, true), Land::Settle(at))
}

fn down_plan(core: Core, from: u16) -> Plan
    requires { Inside core.screen × (from < wide_cells) }
    ensures { result ≡ down_plan core from }
{
    let x = core.screen;
    let m = core.modes;
    let below = from + width_of(x);
    if below < segment_end(x) {
        return settling(core, below);
    }
    if scrolls(m) {
        return writing(core, scroll(x, false), Land::Settle(from));
    }
    settling(core, segment_start(x) + column_of(x.wide, from))
}

// 08h: the previous open cell.
fn back_cell(page: &[u16], on: bool, x: Screen) -> u16
    requires { (length page.now ≡ page_length x) × Inside x }
    ensures { result ≡ previous_open (guarded_at on page.now) (segment_start x) (cursor_of x) }
{
    let start = segment_start(x);
    let at = cursor_of(x);
    search::previous_open(page, on, start as usize, at as usize) as u16
}

fn tab_cell(page: &[u16], tabs: [bool; 132], core: Core) -> u16
    requires { (length page.now ≡ page_length core.screen) × Inside core.screen }
    ensures { result ≡ tab_cell (guarded_at core.modes.protect page.now) tabs core }
{
    let x = core.screen;
    if core.modes.protect {
        let at = cursor_of(x);
        let start = segment_start(x);
        let end = segment_end(x);
        return search::next_field(page, true, start as usize, end as usize, at as usize) as u16;
    }
    let column = search::next_tab(tabs, x.wide, cursor_column(x) as usize);
    row_start(x) + column as u16
}

fn back_tab_cell(page: &[u16], tabs: [bool; 132], core: Core) -> u16
    requires { (length page.now ≡ page_length core.screen) × Inside core.screen }
    ensures { result ≡ back_tab_cell (guarded_at core.modes.protect page.now) tabs core }
{
    let x = core.screen;
    if core.modes.protect {
        let at = cursor_of(x);
        let start = segment_start(x);
        let end = segment_end(x);
        return search::previous_field(page, true, start as usize, end as usize, at as usize) as u16;
    }
    let column = search::previous_tab(tabs, cursor_column(x) as usize);
    row_start(x) + column as u16
}

// The cell at a row and a column, both counted from `base`, the row from the row `top` on.
fn cell_at(wide: bool, top: u16, base: u16, row: u16, column: u16) -> u16
    requires { (base ≤ row) × ((top + (row - base) < 24) × ((base ≤ column) × (column - base < columns wide))) }
    ensures { result ≡ (top + (row - base)) * columns wide + (column - base) }
{
    cells(wide, top + (row - base)) + (column - base)
}

// A row and a column, counted from `base`, in the active segment of x and its first `most` columns.
pub fn address_plan(core: Core, x: Screen, base: u16, most: u16, row: u16, column: u16) -> Plan
    requires { (segment_top x ≤ segment_bottom x) × ((segment_bottom x ≤ 24) × ((base ≤ 32) × (most ≤ columns x.wide))) }
    ensures { result ≡ address_plan core x base most row column }
{
    let top = segment_top(x);
    let rows = segment_bottom(x) - top;
    if among(base, rows, row) && among(base, most, column) {
        return settling(
            with_screen(core, x),
            cell_at(x.wide, top, base, row, column),
        );
    }
    refusing(core, Answer::BadArgument)
}

pub fn plan_move(page: &[u16], tabs: [bool; 132], core: Core, m: Move) -> Plan
    requires { (length page.now ≡ page_length core.screen) × Inside core.screen }
    ensures { result ≡ move_plan (guarded_at core.modes.protect page.now) tabs core m }
{
    let x = core.screen;
    let at = cursor_of(x);
    match m {
        Move::Back => settling(core, back_cell(page, core.modes.protect, x)),
        Move::Right => settling(core, next_cell(x)),
        Move::Return => settling(core, row_start(x)),
        Move::Home => settling(core, segment_start(x)),
        Move::Up => settling(core, up_cell(x)),
        Move::Reverse => reverse_plan(core),
        Move::Down => down_plan(core, at),
        Move::NextLine => down_plan(core, row_start(x)),
        Move::Tab => settling(core, tab_cell(page, tabs, core)),
        Move::BackTab => settling(core, back_tab_cell(page, tabs, core)),
        Move::Address(r, k) => address_plan(core, x, 0x20, ADDRESSED, r as u16, k as u16),
        Move::Decimal(r, k) => address_plan(core, x, 1, width_of(x), r as u16, k),
    }
}
