// Fields, rows and places, for a program that reads a page of any length. Each function gives what its definition in `rules` gives.
#![tactic(auto)]

ghost use Rattle.std.specs.Prelude.{◌≡◌, ⊤, map, ℕ, ◌-◌, ◌<◌, ◌≤◌, length, MatchOption};
ghost use Rattle.std.proofs.Math.Seq.{slice};
ghost use Rattle.rules.specs.Cell.{sent};
ghost use Rattle.rules.specs.Row.{columns, wide_cells};
ghost use Rattle.rules.specs.Room.{over};
ghost use Rattle.rules.specs.Fields.{is_field_start, next_start, next_field_rule};
ghost use Rattle.rules.specs.Fields.{trimmed, text_of, fitting, field_text_rule};
ghost use Rattle.rules.specs.Fields.{row_text_rule, Read, position_rule, cell_rule};
ghost use Rattle.fields.specs.Given.{refusal_number, field_given, text_given, position_given, cell_given};

use page::cell::sent_code;
use page::search::{column_of, columns, edit_end, first_cell, is_guarded_at, is_wide, row_of};
use rules::{Field, Position, TextResult};

// Why nothing is read: no such field, row or cell; a room that is too small; no page has so many cells.
#[derive(Clone, Copy, PartialEq, Eq, Debug)]
pub enum Refusal {
    BadArgument,
    NoRoom,
    BadCall,
}

// A cell's row and column, from 0.
#[derive(Clone, Copy, PartialEq, Eq, Debug)]
pub struct RowColumn {
    pub row: usize,
    pub column: usize,
}

impl Refusal {
    #[tactic(auto, unfolding(crate::specs::Given::refusal_number))]
    pub fn number(self) -> u8
        ensures { result ≡ refusal_number self }
    {
        match self {
            Refusal::BadArgument => 3,
            Refusal::NoRoom => 6,
            Refusal::BadCall => 7,
        }
    }
}

// What a call gives, as C holds it.

#[tactic(auto, unfolding(crate::specs::Given::field_given))]
pub fn field_given(field: Option<Field>) -> Field
    ensures { result ≡ field_given field }
{
    field.unwrap_or(Field {
        start: 0,
        size: 0,
        row: 0,
        column: 0,
    })
}

#[tactic(auto, unfolding(crate::specs::Given::text_given))]
pub fn text_given(text: Result<usize, Refusal>) -> TextResult
    ensures { result ≡ text_given text }
{
    match text {
        Ok(size) => TextResult { answer: 0, size },
        Err(e) => TextResult {
            answer: e.number(),
            size: 0,
        },
    }
}

#[tactic(auto, unfolding(crate::specs::Given::position_given))]
pub fn position_given(place: Result<RowColumn, Refusal>) -> Position
    ensures { result ≡ position_given place }
{
    match place {
        Ok(RowColumn { row, column }) => Position {
            answer: 0,
            row,
            column,
        },
        Err(e) => Position {
            answer: e.number(),
            row: 0,
            column: 0,
        },
    }
}

fn starts_field(page: &[u16], wide: bool, at: usize) -> bool
    requires { at < length page.now }
    ensures { result ≡ is_field_start (columns wide) page.now at }
{
    !is_guarded_at(page, true, at)
        && (column_of(wide, at) == 0 || is_guarded_at(page, true, at - 1))
}

// Where the next field starts, at or behind `from`.
fn next_start(page: &[u16], wide: bool, from: usize) -> Option<usize>
    requires { length page.now ≤ wide_cells }
    ensures { MatchOption result (length page.now ≤ next_start (columns wide) page.now from)
        (λ at. (at < length page.now) × (at ≡ next_start (columns wide) page.now from)) }
{
    for at in from..page.len() {
        if starts_field(page, wide, at) {
            return Some(at);
        }
    }
    None
}

// The first field that starts at or behind `from`. Ruled out: one that takes a protected cell, or runs on over a row's end.
pub fn next_field(page: &[u16], from: usize) -> Option<Field>
    ensures by_rule { field_given result ≡ next_field_rule page.now from }
    ensures some_cell { MatchOption result ⊤ (λ f. 0 < f.size) }
{
    let wide = is_wide(page.len())?;
    let start = next_start(page, wide, from)?;
    Some(Field {
        start,
        size: edit_end(page, wide, true, start) - start,
        row: row_of(wide, start),
        column: column_of(wide, start),
    })
}

// The end of the cells `from` up to `end` without the last ones that go as spaces.
fn trimmed_end(page: &[u16], from: usize, end: usize) -> usize
    requires { (from ≤ end) × ((end ≤ length page.now) × (length page.now ≤ wide_cells)) }
    ensures { (from ≤ result)
        × ((result ≤ end) × (map sent (slice from result page.now) ≡ trimmed (map sent (slice from end page.now)))) }
{
    for at in (from..end).rev() {
        if sent_code(page[at]) != 0x20 {
            return at + 1;
        }
    }
    from
}

fn text_end(page: &[u16], from: usize, end: usize, trim: bool) -> usize
    requires { (from ≤ end) × ((end ≤ length page.now) × (length page.now ≤ wide_cells)) }
    ensures { (from ≤ result) × ((result ≤ end) × (map sent (slice from result page.now) ≡ text_of trim from end page.now)) }
{
    if trim {
        trimmed_end(page, from, end)
    } else {
        end
    }
}

// The bytes of the cells `from` up to `to`, at the front of the room.
fn put(room: &mut [u8], page: &[u16], from: usize, to: usize)
    requires { (from ≤ to) × ((to ≤ length page.now) × ((length page.now ≤ wide_cells) × (to - from ≤ length room.old))) }
    ensures { room.new ≡ over (map sent (slice from to page.now)) room.old }
{
    // By index: a proof knows nothing of the values that `iter_mut().zip(..)` leaves.
    for i in from..to {
        room[i - from] = sent_code(page[i]);
    }
}

// The text of the cells `from` up to `end`, if it fits; how many bytes it is.
fn put_text(
    room: &mut [u8],
    page: &[u16],
    from: usize,
    end: usize,
    trim: bool,
) -> Result<usize, Refusal>
    requires { (from ≤ end) × ((end ≤ length page.now) × (length page.now ≤ wide_cells)) }
    ensures { Read (fitting (text_of trim from end page.now) (length room.old)) (text_given result) room.old
        room.new }
{
    let to = text_end(page, from, end, trim);
    if room.len() < to - from {
        return Err(Refusal::NoRoom);
    }
    put(room, page, from, to);
    Ok(to - from)
}

// The text of the field that starts there, and how many bytes it is. Ruled out: one with a protected cell in it, one that drops leading spaces, one
// that is cut.
pub fn field_text(room: &mut [u8], page: &[u16], start: usize, trim: bool) -> Result<usize, Refusal>
    ensures { Read (field_text_rule page.now start trim (length room.old)) (text_given result) room.old room.new }
{
    let Some(wide) = is_wide(page.len()) else {
        return Err(Refusal::BadCall);
    };
    if page.len() <= start || !starts_field(page, wide, start) {
        return Err(Refusal::BadArgument);
    }
    put_text(room, page, start, edit_end(page, wide, true, start), trim)
}

// The text of a row, labels too.
pub fn row_text(room: &mut [u8], page: &[u16], row: usize, trim: bool) -> Result<usize, Refusal>
    ensures { Read (row_text_rule page.now row trim (length room.old)) (text_given result) room.old room.new }
{
    let Some(wide) = is_wide(page.len()) else {
        return Err(Refusal::BadCall);
    };
    if 24 <= row {
        return Err(Refusal::BadArgument);
    }
    put_text(
        room,
        page,
        first_cell(wide, row),
        first_cell(wide, row + 1),
        trim,
    )
}

// The row and column of a cell in a page of so many cells.
pub fn position(cells: usize, at: usize) -> Result<RowColumn, Refusal>
    ensures { position_given result ≡ position_rule cells at }
{
    let Some(wide) = is_wide(cells) else {
        return Err(Refusal::BadCall);
    };
    if cells <= at {
        return Err(Refusal::BadArgument);
    }
    Ok(RowColumn {
        row: row_of(wide, at),
        column: column_of(wide, at),
    })
}

// The cell at a row and column in a page of so many cells.
pub fn cell_at(cells: usize, row: usize, column: usize) -> Option<usize>
    ensures by_rule { cell_given cells result ≡ cell_rule cells row column }
    ensures inside { MatchOption result ⊤ (λ cell. cell < cells) }
{
    let wide = is_wide(cells)?;
    if row < 24 && column < columns(wide) {
        Some(first_cell(wide, row) + column)
    } else {
        None
    }
}
