// The attributes of a WY-60: the one that is remembered, and those of the cells, where they are not normal.
ghost use Rattle.std.specs.Prelude.{◌≡◌, ◌*◌, ◌<◌, ◌≤◌, length};
ghost use Rattle.rules.specs.Row.{height, columns};

use crate::cells;
use crate::print::out;
use page::cell::{NORMAL, attribute_of};
use std::io;

// The names of the flags of an attribute, and the end of the line.
fn names(rt: &impl Print, a: u8) -> io::Result<()> {
    let flags = [
        (a / 16 % 2 == 1, "dim"),
        (a / 8 % 2 == 1, "underscore"),
        (a / 4 % 2 == 1, "reverse"),
        (a / 2 % 2 == 1, "blink"),
        (a % 2 == 1, "blank"),
    ];
    out::names(rt, &flags, " ", ", ")?;
    out::text(rt, b"\n")
}

// The attribute that ESC G has set for what is stored next.
pub fn remembered(rt: &impl Print, a: u8) -> io::Result<()> {
    if a == NORMAL {
        return Ok(());
    }
    out::text(rt, b"Remembers")?;
    names(rt, a)
}

// Where the cells end that have the attribute of the one at `from`.
fn run_end(cells: &[u16], from: usize) -> usize
    requires { (from < length cells.now) × (length cells.now ≤ 132) }
    ensures { (from < result) × (result ≤ length cells.now) }
{
    let a = attribute_of(cells[from]);
    for i in from + 1..cells.len() {
        if attribute_of(cells[i]) != a {
            return i;
        }
    }
    cells.len()
}

// Cells of a row that have an attribute, by their columns from 1: the first, and the last.
fn run(rt: &impl Print, row: u64, first: u64, last: u64, a: u8) -> io::Result<()> {
    if a == NORMAL {
        return Ok(());
    }
    print!(rt; "  row {row}, columns {first} to {last}:")?;
    names(rt, a)
}

fn row(rt: &impl Print, cells: &[u16], r: u64) -> io::Result<()>
    requires { length cells.now ≤ 132 }
{
    // no `for`: a turn passes over a run of cells
    let mut i = 0;
    while i < cells.len() {
        let e = run_end(cells, i);
        run(rt, r, i as u64 + 1, e as u64, attribute_of(cells[i]))?;
        i = e;
    }
    Ok(())
}

// Whether no cell has an attribute.
fn is_normal(cells: &[u16]) -> bool {
    cells.iter().all(|v| attribute_of(*v) == NORMAL)
}

pub fn show(rt: &impl Print, page: &[u16], wide: bool) -> io::Result<()>
    requires { length page.now ≡ height * columns wide }
{
    if is_normal(page) {
        return Ok(());
    }
    out::text(rt, b"Attributes\n")?;
    for r in 0..24 {
        row(rt, cells::row(page, wide, r), r as u64 + 1)?;
    }
    Ok(())
}
