// The page in a frame, the host message above it and the key labels below it. A line under a row marks its open cells and the cursor; with
// protect mode off every cell is open, and only the cursor is marked.
ghost use Rattle.std.specs.Prelude.{◌≡◌, ◌*◌, ◌≤◌, length};
ghost use Rattle.rules.specs.Row.{height, columns};

use crate::cells::{row, trimmed};
use crate::print::{lines, out};
use page::cell::{Kind, is_open, kind_of, sent_code};
use rules::Setup;
use state::width::{column_of, row_of};
use std::io;

// What is seen of a cell: a graphic as #, any other as a send gives it.
fn seen(v: u16) -> u8 {
    if kind_of(v) == Kind::Graphic {
        b'#'
    } else {
        sent_code(v)
    }
}

fn mark(protect: bool, v: u16, is_cursor: bool) -> u8 {
    if is_cursor {
        b'^'
    } else if protect && is_open(protect, v) {
        b'-'
    } else {
        b' '
    }
}

// Puts what is seen of each cell on a line.
fn draw(cells: &[u16], line: &mut [u8])
    requires { length cells.now ≤ length line.old }
{
    for (i, v) in cells.iter().enumerate() {
        line[i] = seen(*v);
    }
}

// Puts the mark of each cell on a line; `cursor` is the cursor's place among the cells, if it is there.
fn draw_marks(cells: &[u16], protect: bool, cursor: Option<usize>, line: &mut [u8])
    requires { length cells.now ≤ length line.old }
{
    for (i, v) in cells.iter().enumerate() {
        line[i] = mark(protect, *v, cursor == Some(i));
    }
}

// The cursor's column, where it stands in the row.
fn cursor_in(r: usize, wide: bool, cursor: u16) -> Option<usize> {
    if row_of(wide, cursor) as usize == r {
        Some(column_of(wide, cursor) as usize)
    } else {
        None
    }
}

// Whether nothing is seen or marked in a row.
fn is_empty(cells: &[u16], protect: bool, cursor: Option<usize>) -> bool
    requires { length cells.now ≤ 132 }
{
    let mut line = [b' '; 132];
    draw(cells, &mut line);
    if trimmed(&line) != 0 {
        return false;
    }
    draw_marks(cells, protect, cursor, &mut line);
    trimmed(&line) == 0
}

fn framed(rt: &impl Print, line: &[u8]) -> io::Result<()> {
    out::text(rt, b" |")?;
    out::text(rt, line)?;
    out::text(rt, b"|\n")
}

fn show_row(
    rt: &impl Print,
    cells: &[u16],
    protect: bool,
    number: u64,
    cursor: Option<usize>,
) -> io::Result<()>
    requires { length cells.now ≤ 132 }
{
    let mut line = [b' '; 132];
    let n = cells.len();
    draw(cells, &mut line);
    print!(rt; "{number:>2}")?;
    framed(rt, &line[..n])?;
    draw_marks(cells, protect, cursor, &mut line);
    if trimmed(&line) != 0 {
        out::text(rt, b"  ")?;
        framed(rt, &line[..n])?;
    }
    Ok(())
}

// How many rows there are up to the last that is not empty.
fn rows_used(page: &[u16], wide: bool, protect: bool, cursor: u16) -> usize
    requires { length page.now ≡ height * columns wide }
    ensures { result ≤ 24 }
{
    let mut n = 0;
    for r in 0..24 {
        if !is_empty(row(page, wide, r), protect, cursor_in(r, wide, cursor)) {
            n = r + 1;
        }
    }
    n
}

fn show_rows(
    rt: &impl Print,
    page: &[u16],
    wide: bool,
    protect: bool,
    cursor: u16,
    n: usize,
) -> io::Result<()>
    requires page_len { length page.now ≡ height * columns wide }
    requires n_bound { n ≤ 24 }
{
    for r in 0..n {
        show_row(
            rt,
            row(page, wide, r),
            protect,
            r as u64 + 1,
            cursor_in(r, wide, cursor),
        )?;
    }
    Ok(())
}

// The rows that are left out.
fn folded(rt: &impl Print, n: usize) -> io::Result<()> {
    if n < 23 {
        let first = n + 1;
        println!(rt; "    rows {first} to 24 are empty")?;
    }
    if n == 23 {
        out::text(rt, b"    row 24 is empty\n")?;
    }
    Ok(())
}

fn legend(rt: &impl Print, protect: bool) -> io::Result<()> {
    if protect {
        return out::text(
            rt,
            b"    - open cell   ^ cursor   every other cell is guarded\n",
        );
    }
    out::text(rt, b"    ^ cursor\n")
}

// The frame's upper edge counts the columns.
fn upper_edge(rt: &impl Print, wide: bool) -> io::Result<()> {
    out::text(
        rt,
        b"   +---------1---------2---------3---------4---------5---------6---------7---------8",
    )?;
    if wide {
        out::text(rt, b"---------9--------10--------11--------12--------13--")?;
    }
    out::text(rt, b"+\n")
}

fn lower_edge(rt: &impl Print, wide: bool) -> io::Result<()> {
    out::text(
        rt,
        b"   +--------------------------------------------------------------------------------",
    )?;
    if wide {
        out::text(rt, b"----------------------------------------------------")?;
    }
    out::text(rt, b"+\n")
}

pub fn show(
    rt: &impl Print,
    page: &[u16],
    wide: bool,
    protect: bool,
    cursor: u16,
    setup: Setup,
) -> io::Result<()>
    requires { length page.now ≡ height * columns wide }
{
    let message = setup.message;
    let labels = setup.labels;
    let n = rows_used(page, wide, protect, cursor);
    lines::message(rt, message)?;
    upper_edge(rt, wide)?;
    show_rows(rt, page, wide, protect, cursor, n)?;
    lower_edge(rt, wide)?;
    lines::labels(rt, labels, setup.shifted)?;
    folded(rt, n)?;
    legend(rt, protect)
}
