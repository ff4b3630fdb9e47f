// Our own proposer: the longest stretches of differing cells, and the bytes that paint them.
ghost use Rattle.std.specs.Prelude.{◌≡◌, ℕ, ◌+◌, ◌-◌, ◌<◌, ◌≤◌, true, List, length, take, drop, nat_le};
ghost use Rattle.rules.specs.Cell.{both};
ghost use Rattle.rules.specs.Room.{over};
ghost use Rattle.repaint.specs.Proposal.{attribute_code, cell_bytes, cells_bytes, last_shown, stretches, stretches_bytes, paint_bytes, is_text};
ghost use Rattle.repaint.specs.Proposal.{all_text, served, propose_rule, told, Proposes};
ghost use Rattle.repaint.specs.Forward.{reach, one_of, beyond, shown_after, Put, SpansPut, Holding};

use crate::{Counts, ProposeRefusal, width_of};
use rules::Personality;
use state::possible::remembered_ok;

// Unprotected text of code 20h to 7Eh, written by the personality.
fn is_text(personality: Personality, v: u16) -> bool
    ensures { result ≡ is_text personality v }
{
    let c = v % 1024;
    remembered_ok(personality, (v / 1024) as u8) && 0x20 <= c && c < 0x7f
}

fn is_all_text(personality: Personality, page: &[u16]) -> bool
    ensures { result ≡ all_text personality page.now }
{
    page.iter().all(|v| is_text(personality, *v))
}

// Two pages that the proposer serves.
fn is_served(personality: Personality, before: &[u16], after: &[u16]) -> bool
    ensures { result ≡ served personality before.now after.now }
{
    before.len() == 1920
        && after.len() == 1920
        && is_all_text(personality, before)
        && is_all_text(personality, after)
        && before[1919] == after[1919]
}

// The end of the stretch of differing cells that begins at a cell.
fn stretch_end(before: &[u16], after: &[u16], at: usize) -> usize
    requires { (length before.now ≡ 1920) × ((length after.now ≡ 1920) × (at ≤ 1920)) }
    ensures { result ≡ at + reach at (drop at before.now) (drop at after.now) }
{
    let mut i = at;
    // the index is what is given back
    while i < 1920 {
        if before[i] == after[i] {
            return i;
        }
        i += 1;
        if i % 80 == 0 {
            return i;
        }
    }
    i
}

// Where to look on behind a stretch.
fn past(at: usize, end: usize) -> usize
    requires { (at ≤ end) × (end ≤ 1920) }
    ensures { result ≡ beyond at (end - at) }
{
    if at < end { end } else { at + 1 }
}

// Bytes from the place `start` on; the place behind them. The twin of saved's: the two promise definitions of their own, by `sets` here, by `stored`
// there, and those keep their meaning.
fn put(out: &mut [u8], start: usize, bytes: &[u8]) -> usize
    requires { start + length bytes.now ≤ length out.old }
    ensures { Put start bytes.now out.old result out.new }
{
    let end = start + bytes.len();
    out[start..end].copy_from_slice(bytes);
    end
}

// The code of an attribute for ESC G.
fn attribute_code(attribute: u16) -> u8
    requires { attribute < 64 }
    ensures { result ≡ attribute_code attribute }
{
    if attribute < 16 {
        return 0x30 + attribute as u8;
    }
    0x60 + attribute as u8
}

// A cell's byte, with ESC G before it where its attribute is not the remembered one.
fn put_cell(out: &mut [u8], n: usize, remembered: u16, v: u16) -> usize
    requires { n + length (cell_bytes remembered v) ≤ length out.old }
    ensures { Put n (cell_bytes remembered v) out.old result out.new }
{
    let code = (v % 128) as u8;
    let attribute = v / 1024;
    if attribute == remembered {
        return put(out, n, &[code]);
    }
    put(out, n, &[0x1b, b'G', attribute_code(attribute), code])
}

// The place behind the bytes that were put, and the attribute then remembered.
#[derive(Clone, Copy)]
struct Painted {
    place: usize,
    remembered: u16,
}

// Cells, each remembering its own attribute.
fn put_cells(out: &mut [u8], start: usize, remembered: u16, part: &[u16]) -> Painted
    requires { (length part.now ≤ 1920) × (start + length (cells_bytes remembered part.now) ≤ length out.old) }
    ensures { Put start (cells_bytes remembered part.now) out.old result.place out.new
        × (result.remembered ≡ last_shown remembered part.now) }
{
    let mut place = start;
    let mut remembered = remembered;
    for v in part {
        place = put_cell(out, place, remembered, *v);
        remembered = *v / 1024;
    }
    Painted { place, remembered }
}

// The span of a stretch, if it has cells: the next numbers of three lists. How many there are then.
fn put_span(
    rows: &mut [u16],
    columns: &mut [u16],
    lengths: &mut [u16],
    n: usize,
    at: usize,
    end: usize,
) -> usize
    requires { ((at ≤ end) × (end ≤ 1920))
        × ((at < end → n < length rows.old) × ((at < end → n < length columns.old) × ((at < end → n < length lengths.old) × (n ≤ 1920)))) }
    ensures { (b : List ℕ) → length b ≡ 1920
        → SpansPut n (one_of at (end - at) b) rows.old columns.old lengths.old result rows.new
        columns.new lengths.new }
{
    if at < end {
        rows[n] = (at / 80 + 1) as u16;
        columns[n] = (at % 80 + 1) as u16;
        lengths[n] = (end - at) as u16;
        return n + 1;
    }
    n
}

// ESC = to the start of a stretch and its cells, if it has any.
fn put_stretch(
    out: &mut [u8],
    n: usize,
    remembered: u16,
    after: &[u16],
    at: usize,
    end: usize,
) -> Painted
    requires { ((at ≤ end) × (end ≤ 1920))
        × ((length after.now ≡ 1920) × (n + length (stretches_bytes remembered (one_of at (end - at) after.now)) ≤ length out.old)) }
    ensures { Put n (stretches_bytes remembered (one_of at (end - at) after.now)) out.old result.place out.new
        × (result.remembered ≡ shown_after remembered (one_of at (end - at) after.now)) }
{
    if at < end {
        let row = (at / 80) as u8;
        let column = (at % 80) as u8;
        let m = put(out, n, &[0x1b, b'=', 0x20 + row, 0x20 + column]);
        return put_cells(out, m, remembered, &after[at..end]);
    }
    Painted {
        place: n,
        remembered,
    }
}

// How many spans and bytes were made.
#[derive(Clone, Copy)]
struct Made {
    spans: usize,
    bytes: usize,
}

// The spans and the bytes from one page to the other, at the front of lists that hold them.
fn paint(
    rows: &mut [u16],
    columns: &mut [u16],
    lengths: &mut [u16],
    out: &mut [u8],
    before: &[u16],
    after: &[u16],
) -> Made
    requires { ((length before.now ≡ 1920) × (length after.now ≡ 1920))
        × Holding before.now after.now rows.old columns.old lengths.old out.old }
    ensures { SpansPut 0 (stretches before.now after.now) rows.old columns.old
        lengths.old result.spans rows.new columns.new lengths.new
        × Put 0 (paint_bytes before.now after.now) out.old result.bytes out.new }
{
    let mut n = 0;
    let mut k = 0;
    let mut a: u16 = 0;
    let mut at = 0;
    // `at` moves past each stretch
    while at < 1920 {
        let end = stretch_end(before, after, at);
        n = put_span(rows, columns, lengths, n, at, end);
        let p = put_stretch(out, k, a, after, at, end);
        k = p.place;
        a = p.remembered;
        at = past(at, end);
    }
    Made { spans: n, bytes: k }
}

// Whether n spans fit into three lists, and k bytes into a fourth.
fn has_room(n: usize, k: usize, rows: usize, columns: usize, lengths: usize, out: usize) -> bool
    ensures { result ≡ both (both (nat_le n rows) (both (nat_le n columns) (nat_le n lengths))) (nat_le k out) }
{
    n <= rows && n <= columns && n <= lengths && k <= out
}

// The first n spans and k bytes of some lists, at the front of others.
fn give(
    n: usize,
    k: usize,
    r: &[u16],
    c: &[u16],
    l: &[u16],
    o: &[u8],
    rows: &mut [u16],
    columns: &mut [u16],
    lengths: &mut [u16],
    out: &mut [u8],
)
    requires { ((n ≤ 960) × ((n ≤ length r.now) × ((n ≤ length c.now) × ((n ≤ length l.now) × (k ≤ length o.now)))))
        × ((n ≤ length rows.old) × ((n ≤ length columns.old) × ((n ≤ length lengths.old) × (k ≤ length out.old)))) }
    ensures { (rows.new ≡ over (take n r.now) rows.old)
        × ((columns.new ≡ over (take n c.now) columns.old)
        × ((lengths.new ≡ over (take n l.now) lengths.old)
        × (out.new ≡ over (take k o.now) out.old))) }
{
    rows[..n].copy_from_slice(&r[..n]);
    columns[..n].copy_from_slice(&c[..n]);
    lengths[..n].copy_from_slice(&l[..n]);
    out[..k].copy_from_slice(&o[..k]);
}

// Proposes the spans and the bytes that bring a display from one page to another. They are made beside the rooms first, which are written only if all
// of them fit. Ruled out: one that writes and then refuses, sends ESC G at each cell, forgets the attribute between spans, or answers 6 before 3.
pub fn propose(
    before: &[u16],
    after: &[u16],
    personality: Personality,
    rows: &mut [u16],
    columns: &mut [u16],
    lengths: &mut [u16],
    out: &mut [u8],
) -> Result<Counts, ProposeRefusal>
    ensures { Proposes
        (propose_rule personality before.now after.now rows.old columns.old lengths.old
        out.old) (told result) rows.new columns.new lengths.new out.new }
{
    if width_of(before, after).is_none() {
        return Err(ProposeRefusal::WrongLength);
    }
    if !is_served(personality, before, after) {
        return Err(ProposeRefusal::NotServed);
    }
    let mut r: [u16; 960] = [0; 960];
    let mut c: [u16; 960] = [0; 960];
    let mut l: [u16; 960] = [0; 960];
    let mut o: [u8; 7772] = [0; 7772];
    let t = paint(&mut r, &mut c, &mut l, &mut o, before, after);
    let n = t.spans;
    let k = t.bytes;
    if !has_room(n, k, rows.len(), columns.len(), lengths.len(), out.len()) {
        return Err(ProposeRefusal::NoRoom);
    }
    give(n, k, &r, &c, &l, &o, rows, columns, lengths, out);
    Ok(Counts {
        spans: n as u16,
        bytes: k as u16,
    })
}
