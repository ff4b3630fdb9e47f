// What a send puts into a room: the text from one of its places on, a row at a time, as much as fits; bytes; and the one cell of ESC M.
ghost use Rattle.std.specs.Prelude.{◌≡◌, ◌+◌, ◌-◌, ◌*◌, ◌<◌, ◌≤◌, eqb, length, get_or, drop};
ghost use Rattle.rules.specs.Cell.{pick};
ghost use Rattle.rules.specs.Row.{columns, wide_cells};
ghost use Rattle.rules.specs.Send.{open_cell, each, leaves_out, left_out, follows_left_out, text_at};
ghost use Rattle.page.specs.Room.{stands, gone};
ghost use Rattle.page.specs.Text.{GoodAt, Stretch, Skipped, RowSent};

use crate::cell::{is_guarded, is_protected, sent_code};
use crate::search::{column_of, columns, row_end};
use rules::{Place, Sending, Short};

// What a send comes to: how many bytes went, and the send that is left.
#[derive(Clone, Copy)]
pub struct Sent {
    pub replied: usize,
    pub left: Sending,
}

// ESC M: the cell's byte at the front of the room, or none.
pub fn send_cell(room: &mut [u8], page: &[u16], protect: bool, at: usize) -> Sent
    requires { (at < length page.now) × ((length page.now ≤ wide_cells) × (0 < length room.old)) }
    ensures { stands room.new result.replied result.left
        ≡ gone (each Short.Cell 0 (open_cell protect (get_or page.now at 0))) 0 room.old }
{
    if is_guarded(protect, page[at]) {
        return Sent {
            replied: 0,
            left: Sending::Nothing,
        };
    }
    room[0] = sent_code(page[at]);
    Sent {
        replied: 1,
        left: Sending::Nothing,
    }
}

// The bytes of a short reply from the place `from` on, at the front of the room, as many as fit.
pub fn send_bytes(room: &mut [u8], bytes: &[u8], reply: Short, from: u8) -> Sent
    requires { (from ≤ length bytes.now) × (length bytes.now ≤ 255) }
    ensures { stands room.new result.replied result.left
        ≡ gone (each reply from (drop from bytes.now)) 0 room.old }
{
    let rest = &bytes[from as usize..];
    let n = rest.len().min(room.len());
    room[..n].copy_from_slice(&rest[..n]);
    if n < rest.len() {
        return Sent {
            replied: n,
            left: Sending::Short(reply, from + n as u8),
        };
    }
    Sent {
        replied: n,
        left: Sending::Nothing,
    }
}

// A text leaves protected cells out, or sends all.
fn left_out(all: bool, v: u16) -> bool
    ensures { result ≡ left_out (leaves_out all) v }
{
    !all && is_protected(v)
}

// The end, or as many cells from `from` on as there is room for.
fn cut(from: usize, end: usize, room: usize) -> usize
    requires { (from ≤ end) × (end ≤ wide_cells) }
    ensures { (from ≤ result) × ((result ≤ end) × ((result ≤ from + room) × (result < end → result ≡ from + room))) }
{
    from + room.min(end - from)
}

// The cells from `from` on that are sent, up to the first that is left out or `end`, into the room from place n on; where they end.
fn send_stretch(
    room: &mut [u8],
    n: usize,
    page: &[u16],
    all: bool,
    from: usize,
    end: usize,
) -> usize
    requires { (from ≤ end) × ((end ≤ length page.now) × ((length page.now ≤ wide_cells) × (n + (end - from) ≤ length room.old))) }
    ensures { Stretch page.now all from end n room.old result room.new }
{
    let mut k = n;
    for i in from..end {
        if left_out(all, page[i]) {
            return i;
        }
        room[k] = sent_code(page[i]);
        k += 1;
    }
    end
}

// The first cell from `from` on that is sent, where the one before it is left out; or the end.
fn stretch_end(page: &[u16], all: bool, after: bool, from: usize, end: usize) -> usize
    requires { (from ≤ end) × ((end ≤ length page.now) × (length page.now ≤ wide_cells)) }
    ensures { Skipped page.now all after from end result }
{
    if !after {
        return from;
    }
    for i in from..end {
        if !left_out(all, page[i]) {
            return i;
        }
    }
    end
}

// Where a row's cells stand: the next cell, and its place in the room.
#[derive(Clone, Copy)]
struct RowResult {
    n: usize,
    at: usize,
}

// The cells of a row from `from` up to `end` into the room from place `start` on, as far as there is room: FS for the first cell of each
// stretch that is left out. `follows` says that the cell before them is left out.
fn send_row(
    room: &mut [u8],
    start: usize,
    page: &[u16],
    all: bool,
    follows: bool,
    from: usize,
    end: usize,
) -> RowResult
    requires { (from ≤ end) × ((end ≤ length page.now) × ((length page.now ≤ wide_cells) × (start ≤ length room.old))) }
    ensures { RowSent page.now all follows from end start room.old result.at result.n room.new }
{
    let mut n = start;
    let mut at = from;
    let mut after = follows;
    // The room and the row both run out, at their own pace: no one range to go over.
    while n < room.len() {
        let first = stretch_end(page, all, after, at, end);
        let stop = cut(first, end, room.len() - n);
        let next = send_stretch(room, n, page, all, first, stop);
        n += next - first;
        if next == stop {
            return RowResult { n, at: next };
        }
        room[n] = 0x1c;
        n += 1;
        at = next + 1;
        after = true;
    }
    RowResult { n, at }
}

// Whether the cell before this one in its row is left out.
fn follows_left_out(page: &[u16], wide: bool, all: bool, at: usize) -> bool
    requires { (at < length page.now) × (length page.now ≤ wide_cells) }
    ensures { result ≡ follows_left_out (columns wide) all page.now at }
{
    column_of(wide, at) != 0 && left_out(all, page[at - 1])
}

// What stands behind the last cell of a row in the text before `to`.
fn row_place(end: usize, to: usize) -> Place
    requires { end ≤ wide_cells }
    ensures { result ≡ pick (eqb end to) Place.Return (Place.Break end) }
{
    if end == to {
        Place::Return
    } else {
        Place::Break(end as u16)
    }
}

// A send that stops at a place of its text.
fn stop_at(n: usize, all: bool, segment: bool, at: Place) -> Sent
    ensures { (result.replied ≡ n) × (result.left ≡ Sending.Text all segment at) }
{
    Sent {
        replied: n,
        left: Sending::Text { all, segment, at },
    }
}

// The rows of the text before `to` from the cell `from` on, into the room from place `start` on: a US before each further row, and the CR.
fn send_rows(
    room: &mut [u8],
    start: usize,
    page: &[u16],
    wide: bool,
    to: usize,
    all: bool,
    segment: bool,
    from: usize,
) -> Sent
    requires { (from < to) × ((to ≤ length page.now) × ((length page.now ≡ 24 * columns wide) × (start ≤ length room.old))) }
    ensures { stands room.new result.replied result.left
        ≡ gone (text_at (columns wide) page.now to all segment (Place.Cell from)) start room.old }
{
    let mut replied = start;
    let mut at = from;
    let mut after = follows_left_out(page, wide, all, from);
    let mut end = cut(at, to, row_end(wide, from) - from);
    // The room and the rows both run out, at their own pace: no one range to go over.
    while replied < room.len() {
        let row = send_row(room, replied, page, all, after, at, end);
        replied = row.n;
        at = row.at;
        if at < end {
            return stop_at(replied, all, segment, Place::Cell(at as u16));
        }
        if replied == room.len() {
            return stop_at(replied, all, segment, row_place(end, to));
        }
        if end == to {
            room[replied] = 0x0d;
            return Sent {
                replied: replied + 1,
                left: Sending::Nothing,
            };
        }
        room[replied] = 0x1f;
        replied += 1;
        after = false;
        end = cut(at, to, columns(wide));
    }
    stop_at(replied, all, segment, Place::Cell(at as u16))
}

// The text before `to` from one of its places on, at the front of the room, as much as fits.
pub fn send_text(
    room: &mut [u8],
    page: &[u16],
    wide: bool,
    to: usize,
    all: bool,
    segment: bool,
    at: Place,
) -> Sent
    requires { GoodAt (columns wide) to at × ((to ≤ length page.now) × ((length page.now ≡ 24 * columns wide) × (0 < length room.old))) }
    ensures { stands room.new result.replied result.left
        ≡ gone (text_at (columns wide) page.now to all segment at) 0 room.old }
{
    match at {
        Place::Cell(i) => send_rows(room, 0, page, wide, to, all, segment, i as usize),
        Place::Break(i) => {
            room[0] = 0x1f;
            send_rows(room, 1, page, wide, to, all, segment, i as usize)
        }
        Place::Return => {
            room[0] = 0x0d;
            Sent {
                replied: 1,
                left: Sending::Nothing,
            }
        }
    }
}
