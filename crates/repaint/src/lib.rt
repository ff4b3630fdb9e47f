// Repainting a distant display: spans and bytes that bring it from the page that it shows to the page that it should show, and judges of both.
#![tactic(auto)]

mod feeding; // the judge of bytes
mod painter; // our own proposer

ghost use Rattle.std.specs.Prelude.{◌≡◌, ◌≢◌, ◌+◌, ◌<◌, ◌≤◌, length};
ghost use Rattle.std.specs.Option.{SomeIff, unwrap_or};
ghost use Rattle.repaint.specs.Spans.{verdict_number, SpansVerdict, ListsVerdict};
ghost use Rattle.repaint.specs.Proposal.{refusal_number, told};
ghost use Rattle.repaint.specs.Pass.{pages_width, equal, fits, beyond, turned, finished};

pub use feeding::judge_bytes;
use page::search::{columns, is_wide};
pub use painter::propose;

// Cells of one row: its row and its first column, counted from 1, and how many they are.
#[repr(C)]
#[derive(Clone, Copy)]
pub struct Span {
    pub row: u16,
    pub column: u16,
    pub size: u16,
}

// What a judge answers.
#[derive(Clone, Copy, PartialEq, Eq)]
pub enum Verdict {
    Accepted,
    NotAccepted,
    WrongLength,
}

impl Verdict {
    pub fn number(self) -> u8
        ensures { result ≡ verdict_number self }
    {
        match self {
            Verdict::Accepted => 0,
            Verdict::NotAccepted => 3,
            Verdict::WrongLength => 7,
        }
    }
}

// Why the proposer refuses: pages of unlike or wrong lengths, pages that it does not serve, and too little room.
#[derive(Clone, Copy, PartialEq, Eq)]
pub enum ProposeRefusal {
    WrongLength,
    NotServed,
    NoRoom,
}

impl ProposeRefusal {
    pub fn number(self) -> u8
        ensures { result ≡ refusal_number self }
    {
        match self {
            ProposeRefusal::WrongLength => 7,
            ProposeRefusal::NotServed => 3,
            ProposeRefusal::NoRoom => 6,
        }
    }
}

// How many spans and bytes were proposed.
#[derive(Clone, Copy)]
pub struct Counts {
    pub spans: u16,
    pub bytes: u16,
}

// The proposer's answer as C is given it: the number of a refusal, or 0 and the counts.
#[repr(C)]
#[derive(Clone, Copy)]
pub struct ProposeResult {
    pub answer: u8,
    pub spans: u16,
    pub bytes: u16,
}

pub fn told(r: Result<Counts, ProposeRefusal>) -> ProposeResult
    ensures { result ≡ told r }
{
    match r {
        Ok(Counts { spans, bytes }) => ProposeResult {
            answer: 0,
            spans,
            bytes,
        },
        Err(e) => ProposeResult {
            answer: e.number(),
            spans: 0,
            bytes: 0,
        },
    }
}

// The width of two pages; none where they are of unlike lengths, or of no page's.
fn width_of(before: &[u16], after: &[u16]) -> Option<usize>
    ensures { SomeIff result (pages_width before.now after.now ≢ 0) (pages_width before.now after.now) }
{
    if before.len() != after.len() {
        return None;
    }
    let wide = is_wide(before.len())?;
    Some(columns(wide))
}

// The cells from `from` up to `to` are equal, and `from` is not beyond `to`.
fn same_cells(before: &[u16], after: &[u16], from: usize, to: usize) -> bool
    requires { (to ≤ length before.now) × (length before.now ≡ length after.now) }
    ensures { result ≡ equal before.now after.now from to }
{
    if to < from {
        return false;
    }
    before[from..to] == after[from..to]
}

// A span that is not empty and lies within its row.
fn fits_row(width: usize, s: Span) -> bool
    requires { width ≤ 132 }
    ensures { result ≡ fits width s }
{
    1 <= s.row
        && s.row <= 24
        && 1 <= s.column
        && 1 <= s.size
        && usize::from(s.column) + usize::from(s.size) <= width + 1
}

// One span: `next` moved past it, or none where the list is refused.
fn turn(before: &[u16], after: &[u16], width: usize, next: usize, s: Span) -> Option<usize>
    requires { width ≡ pages_width before.now after.now }
    ensures { unwrap_or result beyond ≡ turned before.now after.now next s }
{
    if !fits_row(width, s) {
        return None;
    }
    let start = (usize::from(s.row) - 1) * width + (usize::from(s.column) - 1);
    if !same_cells(before, after, next, start) {
        return None;
    }
    Some(start + usize::from(s.size))
}

// After the last span: the cells that are left must be equal.
fn finish(before: &[u16], after: &[u16], next: usize) -> Verdict
    requires { pages_width before.now after.now ≢ 0 }
    ensures { result ≡ finished before.now after.now next }
{
    if same_cells(before, after, next, before.len()) {
        Verdict::Accepted
    } else {
        Verdict::NotAccepted
    }
}

// Accepts the spans of three parallel lists exactly if they are in reading order, do not overlap, lie within their rows, are not empty and cover
// every cell that differs. One pass over the pages: `next` is the first cell not yet judged. Ruled out: one that takes a span over a row's end, an
// overlap, or a differing cell that no span covers.
pub fn judge_lists(
    before: &[u16],
    after: &[u16],
    rows: &[u16],
    columns: &[u16],
    lengths: &[u16],
) -> Verdict
    ensures { ListsVerdict before.now after.now rows.now columns.now lengths.now
        (verdict_number result) }
{
    if rows.len() != columns.len() || rows.len() != lengths.len() {
        return Verdict::WrongLength;
    }
    let Some(width) = width_of(before, after) else {
        return Verdict::WrongLength;
    };
    let mut next = 0;
    for ((row, column), size) in rows.iter().zip(columns).zip(lengths) {
        let s = Span {
            row: *row,
            column: *column,
            size: *size,
        };
        let Some(reached) = turn(before, after, width, next, s) else {
            return Verdict::NotAccepted;
        };
        next = reached;
    }
    finish(before, after, next)
}

// The same for a slice of spans. Its loop is its own: one function over any iterator of spans would have to promise what that gives: no plainer.
pub fn judge_spans(before: &[u16], after: &[u16], spans: &[Span]) -> Verdict
    ensures { SpansVerdict before.now after.now spans.now (verdict_number result) }
{
    let Some(width) = width_of(before, after) else {
        return Verdict::WrongLength;
    };
    let mut next = 0;
    for s in spans {
        let Some(reached) = turn(before, after, width, next, *s) else {
            return Verdict::NotAccepted;
        };
        next = reached;
    }
    finish(before, after, next)
}
