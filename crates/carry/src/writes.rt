// What a plan writes to the page, and the row list after it.
ghost use Rattle.std.specs.Prelude.{◌≡◌, ◌*◌, length};
ghost use Rattle.rules.specs.Row.{columns};
ghost use Rattle.rules.specs.Theorems.Good.{GoodWrite};
ghost use Rattle.rules.specs.Carry.{applied};
ghost use Rattle.rules.specs.Search.{guarded_at};
ghost use Rattle.rules.specs.RowList.{Beside};
ghost use Rattle.carry.specs.Rows.{keeps_guards as keeps_of, touched_top, touched_bottom};

use page::cell::is_guarded;
use page::change::{fill_cells, fill_column, shift_edit_run, shift_rows};
use page::rows::{rebuild, recount};
use page::search::{columns, row_of};
use rules::Write;

pub fn write(page: &mut [u16], wide: bool, on: bool, w: Write)
    requires { (length page.old ≡ 24 * columns wide) × GoodWrite (columns wide) w }
    ensures { page.new ≡ applied (columns wide) on w page.old }
{
    match w {
        Write::Nothing => {}
        Write::Fill { from, to, value } => fill_cells(page, on, from as usize, to as usize, value),
        Write::FillAll { from, to, value } => fill_cells(
            page,
            false,
            from as usize,
            to as usize,
            value,
        ),
        Write::Column {
            top,
            bottom,
            column,
            value,
        } => {
            fill_column(
                page,
                wide,
                on,
                top as usize,
                bottom as usize,
                column as usize,
                value,
            )
        }
        Write::Edit { right, at, value } => shift_edit_run(
            page,
            wide,
            on,
            right,
            at as usize,
            value,
        ),
        Write::Rows { down, top, bottom } => shift_rows(
            page,
            wide,
            down,
            top as usize,
            bottom as usize,
        ),
    }
}

// The same, without a call for a write of nothing.
fn write_some(page: &mut [u16], wide: bool, on: bool, w: Write)
    requires { (length page.old ≡ 24 * columns wide) × GoodWrite (columns wide) w }
    ensures { page.new ≡ applied (columns wide) on w page.old }
{
    if let Write::Nothing = w {
        return;
    }
    write(page, wide, on, w);
}

// Whether a write leaves which cells are guarded as it is.
fn keeps_guards(on: bool, w: Write) -> bool
    ensures { result ≡ keeps_of on w }
{
    match w {
        Write::Nothing => true,
        Write::Fill { value, .. } | Write::Column { value, .. } | Write::Edit { value, .. } => {
            !is_guarded(on, value)
        }
        Write::FillAll { .. } | Write::Rows { .. } => !on,
    }
}

// The rows that are counted again after a write: the first, and the one past the last.
#[derive(Clone, Copy)]
struct RowSpan {
    top: usize,
    bottom: usize,
}

fn touched(wide: bool, w: Write) -> RowSpan
    ensures { (result.top ≡ touched_top (columns wide) w) × (result.bottom ≡ touched_bottom (columns wide) w) }
{
    match w {
        Write::Nothing => RowSpan { top: 0, bottom: 0 },
        Write::Fill { from, to, .. } => RowSpan {
            top: row_of(wide, from as usize),
            bottom: row_of(wide, to as usize + (columns(wide) - 1)),
        },
        Write::Edit { at, .. } => {
            let top = row_of(wide, at as usize);
            RowSpan {
                top,
                bottom: top + 1,
            }
        }
        Write::FillAll { .. } | Write::Column { .. } | Write::Rows { .. } => RowSpan {
            top: 0,
            bottom: 24,
        },
    }
}

// Both writes of a plan, and the row list after them; protect mode becomes `after`.
pub fn write_both(
    page: &mut [u16],
    rows: &mut [u16],
    wide: bool,
    on: bool,
    after: bool,
    first: Write,
    second: Write,
)
    requires { (length page.old ≡ 24 * columns wide)
        × (GoodWrite (columns wide) first
        × (GoodWrite (columns wide) second × Beside (columns wide) (guarded_at on page.old) rows.old)) }
    ensures { (page.new ≡ applied (columns wide) on second (applied (columns wide) on first page.old))
        × Beside (columns wide) (guarded_at after page.new) rows.new }
{
    write_some(page, wide, on, first);
    write_some(page, wide, on, second);
    if rows.is_empty() {
        return;
    }
    if on != after || !keeps_guards(on, second) {
        rebuild(rows, page, wide, after);
        return;
    }
    if keeps_guards(on, first) {
        return;
    }
    let RowSpan { top, bottom } = touched(wide, first);
    recount(rows, page, wide, after, top, bottom);
}

// The row list where nothing is written; protect mode becomes `after`.
pub fn keep_list(rows: &mut [u16], page: &[u16], wide: bool, on: bool, after: bool)
    requires { (length page.now ≡ 24 * columns wide) × Beside (columns wide) (guarded_at on page.now) rows.old }
    ensures { Beside (columns wide) (guarded_at after page.now) rows.new }
{
    if !rows.is_empty() && on != after {
        rebuild(rows, page, wide, after);
    }
}
