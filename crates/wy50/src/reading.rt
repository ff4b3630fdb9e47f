// What C reads of a page, by its length: fields, texts and places. The structs are those of the rules.
ghost use Rattle.std.specs.Prelude.{◌≡◌, not, eqb, length};
ghost use Rattle.rules.specs.Fields.{next_field_rule, field_text_rule, row_text_rule, Read, position_rule, cell_rule};
ghost use Rattle.wy50.specs.Promise.{raw_possible, raw_cursor};

use crate::raw::RawState;
use crate::unpack::state_of;
use fields::{
    cell_at, field_given, field_text, next_field, position, position_given, row_text, text_given,
};
use rules::{Field, Position, TextResult};
use state::possible::possible;
use state::width::cells;

// The first field that starts at or behind a cell.
#[unsafe(no_mangle)]
pub extern "C" fn wy50_next_field(page: &[u16], from: usize) -> Field
    ensures { result ≡ next_field_rule page.now from }
{
    field_given(next_field(page, from))
}

// The text of the field that starts at a cell; trailing spaces are dropped where `trim` is not 0. Ruled out: one that reads it the other way.
#[unsafe(no_mangle)]
pub extern "C" fn wy50_field_text(
    page: &[u16],
    start: usize,
    trim: u8,
    text: &mut [u8],
) -> TextResult
    ensures { Read (field_text_rule page.now start (not (eqb trim 0)) (length text.old)) result text.old
        text.new }
{
    text_given(field_text(text, page, start, is_set(trim)))
}

// The text of a row, labels too.
#[unsafe(no_mangle)]
pub extern "C" fn wy50_row_text(page: &[u16], row: usize, trim: u8, text: &mut [u8]) -> TextResult
    ensures { Read (row_text_rule page.now row (not (eqb trim 0)) (length text.old)) result text.old
        text.new }
{
    text_given(row_text(text, page, row, is_set(trim)))
}

fn is_set(flag: u8) -> bool
    ensures { result ≡ not (eqb flag 0) }
{
    flag != 0
}

// The row and column of a cell, and the cell at a row and column, in a page of so many cells.
#[unsafe(no_mangle)]
pub extern "C" fn wy50_position_of(cells: usize, cell: usize) -> Position
    ensures { result ≡ position_rule cells cell }
{
    position_given(position(cells, cell))
}

#[unsafe(no_mangle)]
pub extern "C" fn wy50_cell_at(cells: usize, row: usize, column: usize) -> usize
    ensures { result ≡ cell_rule cells row column }
{
    cell_at(cells, row, column).unwrap_or(cells)
}

// Whether the numbers name a possible state.
fn is_possible(state: RawState) -> bool
    ensures { result ≡ raw_possible state }
{
    state_of(state).is_some_and(possible)
}

// The row and column of the active cursor. Ruled out: one that gives the other segment's, or a place for an impossible state.
#[unsafe(no_mangle)]
pub extern "C" fn wy50_cursor(state: RawState) -> Position
    ensures { result ≡ raw_cursor state }
{
    if !is_possible(state) {
        return Position {
            answer: 7,
            row: 0,
            column: 0,
        };
    }
    let screen = state.screen;
    let page = cells(screen.wide == 1, 24) as usize;
    let cursor = if screen.active == 0 {
        screen.cursor0
    } else {
        screen.cursor1
    };
    position_given(position(page, cursor as usize))
}
