// Lines that read the page: fields, texts and places.
use replay_text::trace::Room;
use rules::TextResult;
use std::io;
use std::io::Write;

// The next field at or behind a cell.
pub fn field(to: &mut impl Write, from: usize, page: &[u16]) -> io::Result<()> {
    let f = fields::field_given(fields::next_field(page, from));
    write!(
        to,
        " start={} length={} row={} column={}",
        f.start, f.size, f.row, f.column
    )
}

fn text_result(to: &mut impl Write, r: &TextResult, room: &[u8]) -> io::Result<()> {
    let text = Room {
        bytes: room,
        used: r.size,
    };
    write!(to, " answer={} length={} text={text}", r.answer, r.size)
}

// The text of the field that starts at a cell, and of a row.
pub fn field_text(
    to: &mut impl Write,
    start: usize,
    trim: bool,
    page: &[u16],
    room: &mut [u8],
) -> io::Result<()> {
    let r = fields::text_given(fields::field_text(room, page, start, trim));
    text_result(to, &r, room)
}

pub fn row_text(
    to: &mut impl Write,
    row: usize,
    trim: bool,
    page: &[u16],
    room: &mut [u8],
) -> io::Result<()> {
    let r = fields::text_given(fields::row_text(room, page, row, trim));
    text_result(to, &r, room)
}

// The row and column of a cell, and the cell at a row and column, of a page of this length.
pub fn position(to: &mut impl Write, cell: usize, page: &[u16]) -> io::Result<()> {
    let p = fields::position_given(fields::position(page.len(), cell));
    write!(to, " answer={} row={} column={}", p.answer, p.row, p.column)
}

pub fn place(to: &mut impl Write, row: usize, column: usize, page: &[u16]) -> io::Result<()> {
    let cell = fields::cell_at(page.len(), row, column).unwrap_or(page.len());
    write!(to, " cell={cell}")
}
