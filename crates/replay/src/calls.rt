// Lines that call: each writes what stands behind its word, up to the state. Rooms and lists are all EEh and EEEEh before a call.
use crate::bench::Bench;
use crate::lists::{BYTES, CELLS};
use crate::script::{AboveLine, Call, PageLine, StoreLine, TerminalLine};
use replay_above::{counting, mending, repainting, store};
use replay_terminal::{calls, reading};
use replay_text::rooms::split;
use replay_text::words::later;
use rules::Personality;
use std::io;
use std::io::Write;

// The numbers of the longest list of entries of a mending.
const NUMBERS: usize = 65536;

fn of_terminal(
    to: &mut impl Write,
    b: &mut Bench,
    x: TerminalLine,
    input: &[u8],
) -> io::Result<()> {
    let mut reply = [0xee; CELLS];
    let page = b.page.as_mut_slice();
    let rows = b.rows.as_mut_slice();
    match x {
        TerminalLine::On(m) => b.state = calls::on(to, m, page)?,
        TerminalLine::Step { listed, byte, room } => {
            let rows = listed.then_some(rows);
            let room = &mut reply[..room.min(CELLS)];
            b.state = calls::step(to, b.state, byte, page, rows, room)?;
        }
        TerminalLine::Run {
            next,
            listed,
            length,
            room,
        } => {
            let rows = listed.then_some(rows);
            let (input, _) = split(input, length);
            let room = &mut reply[..room.min(CELLS)];
            b.state = if next {
                calls::next(to, b.state, input, page, rows, room)?
            } else {
                calls::run(to, b.state, input, page, rows, room)?
            };
        }
        TerminalLine::Press { key, room } => {
            calls::press(to, b.state, key, page, &mut reply[..room.min(CELLS)])?;
        }
        TerminalLine::Rebuild => calls::rebuild(to, b.state, page, rows)?,
    }
    Ok(())
}

fn of_page(to: &mut impl Write, x: PageLine, page: &[u16]) -> io::Result<()> {
    let mut text = [0xee; CELLS];
    match x {
        PageLine::Show => calls::show(to, page),
        PageLine::Field(cell) => reading::field(to, cell, page),
        PageLine::FieldText { start, trim, room } => {
            reading::field_text(to, start, trim, page, &mut text[..room.min(CELLS)])
        }
        PageLine::RowText { row, trim, room } => {
            reading::row_text(to, row, trim, page, &mut text[..room.min(CELLS)])
        }
        PageLine::Position(cell) => reading::position(to, cell, page),
        PageLine::Place { row, column } => reading::place(to, row, column, page),
    }
}

fn of_store(to: &mut impl Write, b: &mut Bench, x: StoreLine) -> io::Result<()> {
    match x {
        StoreLine::Save => store::save(to, b.state, b.store.as_mut_slice()),
        StoreLine::Restore(n) => {
            b.state = store::restore(to, b.state, n, b.store.as_slice())?;
            Ok(())
        }
    }
}

fn mend(to: &mut impl Write, m: Personality, numbers: usize, page: &mut [u16]) -> io::Result<()> {
    let mut list = [0xeeee; NUMBERS];
    mending::mend(to, m, page, &mut list[..numbers.min(NUMBERS)])
}

fn propose(
    to: &mut impl Write,
    m: Personality,
    spans: usize,
    bytes: usize,
    display: &[u16],
    page: &[u16],
) -> io::Result<()> {
    let mut rows = [0xeeee; CELLS];
    let mut columns = [0xeeee; CELLS];
    let mut lengths = [0xeeee; CELLS];
    let mut room = [0xee; BYTES];
    let n = spans.min(CELLS);
    repainting::propose(
        to,
        m,
        display,
        page,
        &mut rows[..n],
        &mut columns[..n],
        &mut lengths[..n],
        &mut room[..bytes.min(BYTES)],
    )
}

fn of_above(
    to: &mut impl Write,
    b: &mut Bench,
    x: AboveLine,
    line: &[u8],
    input: &[u8],
) -> io::Result<()> {
    let display = b.display.as_slice();
    match x {
        AboveLine::Count {
            length,
            first,
            last,
        } => counting::count(to, split(input, length).0, first, last),
        AboveLine::Entry(length) => counting::entry(to, split(input, length).0),
        AboveLine::Mend { model, numbers } => mend(to, model, numbers, b.page.as_mut_slice()),
        AboveLine::Spans => repainting::spans(to, later(line), display, b.page.as_slice()),
        AboveLine::Bytes { model, length } => {
            repainting::bytes(
                to,
                model,
                split(input, length).0,
                display,
                b.page.as_slice(),
            )
        }
        AboveLine::Propose {
            model,
            spans,
            bytes,
        } => propose(to, model, spans, bytes, display, b.page.as_slice()),
    }
}

pub fn call(
    to: &mut impl Write,
    b: &mut Bench,
    x: Call,
    line: &[u8],
    input: &[u8],
) -> io::Result<()> {
    match x {
        Call::Terminal(x) => of_terminal(to, b, x, input),
        Call::Page(x) => of_page(to, x, b.page.as_slice()),
        Call::Store(x) => of_store(to, b, x),
        Call::Above(x) => of_above(to, b, x, line, input),
    }
}
