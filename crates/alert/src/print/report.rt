// What is told beside the page: the cursor, the modes, the guarded cells, what was refused, and the replies.
use crate::print::out;
use crate::stream::{Played, Refusals};
use page::cell::is_guarded;
use rules::{Modes, Pending, Screen};
use state::screen::cursor_of;
use state::width::{column_of, row_of};
use std::io;

pub fn heading(rt: &impl Print, name: &str, bytes: u64) -> io::Result<()> {
    out::text(rt, name.as_bytes())?;
    out::text(rt, b": ")?;
    out::count(rt, bytes, "byte")?;
    out::text(rt, b" from the host\n\n")
}

fn split(rt: &impl Print, screen: Screen) -> io::Result<()> {
    let s = screen.split as u64;
    if s == 0 {
        return Ok(());
    }
    let last = s - 1;
    let active = screen.active;
    println!(rt;
        "Split     segment 0 is rows 1 to {last}, segment 1 rows {s} to 24; segment {active} is active"
    )
}

fn is_guarded_at(page: &[u16], protect: bool, at: usize) -> bool {
    match page.get(at) {
        Some(v) => is_guarded(protect, *v),
        None => false,
    }
}

// A cell of the page by its row and column.
fn cell_place(rt: &impl Print, wide: bool, at: u16) -> io::Result<()> {
    let row = u64::from(row_of(wide, at)) + 1;
    let column = u64::from(column_of(wide, at)) + 1;
    print!(rt; "row {row}, column {column}")
}

pub fn place(rt: &impl Print, page: &[u16], protect: bool, screen: Screen) -> io::Result<()> {
    let at = cursor_of(screen);
    out::text(rt, b"\nCursor    ")?;
    cell_place(rt, screen.wide, at)?;
    if is_guarded_at(page, protect, at as usize) {
        out::text(rt, b", on a guarded cell")?;
    }
    out::text(rt, b"\n")?;
    split(rt, screen)
}

pub fn modes(rt: &impl Print, m: Modes) -> io::Result<()> {
    out::text(rt, b"Modes     ")?;
    let modes = [
        (m.protect, "protect"),
        (m.writeprotect, "write-protect"),
        (m.insert, "insert"),
        (m.autoscroll, "autoscroll"),
        (m.locked, "keyboard locked"),
        (m.local, "local edit"),
    ];
    if !out::names(rt, &modes, "", ", ")? {
        out::text(rt, b"none is on")?;
    }
    out::text(rt, b"\n")
}

// The wish, where it is not for a page of this width.
pub fn wish(rt: &impl Print, wide: bool, wished: bool) -> io::Result<()> {
    if wide == wished {
        return Ok(());
    }
    if wished {
        return out::text(rt, b"Wish      a wide page: alert -w shows one\n");
    }
    out::text(rt, b"Wish      a narrow page: alert without -w shows one\n")
}

// A sequence that the stream leaves unfinished.
pub fn sequence(rt: &impl Print, q: Pending) -> io::Result<()> {
    if let Pending::Idle = q {
        return Ok(());
    }
    out::text(rt, b"Sequence  the stream ends within one\n")
}

// A kind of refusal, where there was one: how many, of what, and why.
fn kind(rt: &impl Print, n: u64, word: &str, why: &str) -> io::Result<()> {
    if n == 0 {
        return Ok(());
    }
    out::text(rt, b"          ")?;
    out::count(rt, n, word)?;
    println!(rt; "{why}")
}

// The bytes above 7Fh: the page was compared cell by cell before and after each.
fn high(rt: &impl Print, n: u64, clean: bool) -> io::Result<()> {
    let why = if clean {
        " above 7Fh (answer 1): the page is the same before and after, cell by cell"
    } else {
        " above 7Fh (answer 1): THE PAGE IS NOT THE SAME before and after"
    };
    kind(rt, n, "byte", why)
}

fn total(r: Refusals) -> u64 {
    r.high
        .wrapping_add(r.unknown)
        .wrapping_add(r.argument)
        .wrapping_add(r.barred)
        .wrapping_add(r.other)
}

// A number, or the word for none.
fn amount(rt: &impl Print, n: u64) -> io::Result<()> {
    if n == 0 {
        return out::text(rt, b"none");
    }
    print!(rt; "{n}")
}

pub fn refused(rt: &impl Print, r: Refusals, bytes: u64, clean: bool) -> io::Result<()> {
    out::text(rt, b"Refused   ")?;
    amount(rt, total(r))?;
    out::text(rt, b" of ")?;
    out::count(rt, bytes, "byte")?;
    out::text(rt, b"\n")?;
    high(rt, r.high, clean)?;
    kind(
        rt,
        r.unknown,
        "byte",
        " after ESC that no rule has (answer 2)",
    )?;
    kind(
        rt,
        r.argument,
        "argument",
        " outside its range or its form (answer 3)",
    )?;
    kind(
        rt,
        r.barred,
        "byte",
        " barred by a guarded cell or by protect mode (answer 4)",
    )?;
    kind(
        rt,
        r.other,
        "byte",
        " that the terminal did not take (answer 6, 7 or 8)",
    )
}

fn is_text(b: u8) -> bool {
    matches!(b, 0x20..=0x7e)
}

// A control code by its name, or by its number.
fn control(rt: &impl Print, b: u8) -> io::Result<()> {
    match b {
        0x06 => out::text(rt, b"<ACK>"),
        0x0d => out::text(rt, b"<CR>"),
        0x1c => out::text(rt, b"<FS>"),
        0x1f => out::text(rt, b"<US>"),
        _ => print!(rt; "<{b:02x}>"),
    }
}

// A reply byte; a text after a control code starts a line.
fn reply_byte(rt: &impl Print, last: u8, b: u8) -> io::Result<()> {
    if !is_text(b) {
        return control(rt, b);
    }
    if !is_text(last) {
        out::text(rt, b"\n  ")?;
    }
    out::text(rt, &[b])
}

fn reply_bytes(rt: &impl Print, bytes: &[u8]) -> io::Result<()> {
    let mut last = b' ';
    for b in bytes {
        reply_byte(rt, last, *b)?;
        last = *b;
    }
    Ok(())
}

// The replies, joined; the log holds the first of their bytes.
pub fn replies(rt: &impl Print, p: Played, log: &[u8]) -> io::Result<()> {
    if p.replied == 0 {
        return Ok(());
    }
    let n = p.kept.min(log.len());
    out::text(rt, b"\nReplies to the host, ")?;
    out::count(rt, p.replied, "byte")?;
    out::text(rt, b"\n  ")?;
    reply_bytes(rt, &log[..n])?;
    if (n as u64) < p.replied {
        out::text(rt, b" ..")?;
    }
    out::text(rt, b"\n")
}
