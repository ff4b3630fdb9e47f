// The lines that judge spans and bytes for the distant display, and propose them.
use repaint::{Span, Verdict};
use replay_text::rooms::{is_untouched, split};
use replay_text::trace::ByteString;
use replay_text::words::number_as;
use rules::Personality;
use std::io::Write;
use std::{fmt, io};

// More spans than a line can name.
const SPANS: usize = 11000;

// `ROW:COLUMN:LENGTH`.
fn span(word: &[u8]) -> Option<Span> {
    let mut numbers = word.split(|c| *c == b':');
    let row = number_as(numbers.next()?)?;
    let column = number_as(numbers.next()?)?;
    let size = number_as(numbers.next()?)?;
    match numbers.next() {
        None => Some(Span { row, column, size }),
        Some(_) => None,
    }
}

// Puts the spans that a word spells, parted by commas, `-` for none, to the front of a list, and answers how many there are.
fn read(word: &[u8], spans: &mut [Span]) -> Option<usize> {
    if word == b"-".as_slice() {
        return Some(0);
    }
    let mut n = 0;
    for part in word.split(|c| *c == b',') {
        *spans.get_mut(n)? = span(part)?;
        n += 1;
    }
    Some(n)
}

// Whether a word spells spans.
pub fn are_spans(word: &[u8]) -> bool {
    word == b"-".as_slice() || word.split(|c| *c == b',').all(|part| span(part).is_some())
}

fn judged(to: &mut impl Write, v: Verdict) -> io::Result<()> {
    write!(to, " answer={}", v.number())
}

// The judge over the spans that a word spells.
pub fn spans(to: &mut impl Write, word: &[u8], display: &[u16], page: &[u16]) -> io::Result<()> {
    let none = Span {
        row: 0,
        column: 0,
        size: 0,
    };
    let mut spans = [none; SPANS];
    let n = read(word, &mut spans).unwrap_or(0);
    let (spans, _) = split(&spans, n);
    judged(to, repaint::judge_spans(display, page, spans))
}

pub fn bytes(
    to: &mut impl Write,
    m: Personality,
    input: &[u8],
    display: &[u16],
    page: &[u16],
) -> io::Result<()> {
    judged(to, repaint::judge_bytes(display, page, m, input))
}

// Spans in three lists, parted by commas, `-` where there are none.
#[derive(Clone, Copy)]
struct SpanList<'a> {
    rows: &'a [u16],
    columns: &'a [u16],
    lengths: &'a [u16],
}

impl fmt::Display for SpanList<'_> {
    fn fmt<W: fmt::Write>(&self, f: &mut fmt::Formatter<W>) -> fmt::Result {
        if self.rows.is_empty() {
            return write!(f, "-");
        }
        let spans = self.rows.iter().zip(self.columns).zip(self.lengths);
        for (i, ((row, column), length)) in spans.enumerate() {
            let parting = if i == 0 { "" } else { "," };
            write!(f, "{parting}{row}:{column}:{length}")?;
        }
        Ok(())
    }
}

// What was proposed, and whether the rooms behind it are as they were.
pub fn propose(
    to: &mut impl Write,
    m: Personality,
    display: &[u16],
    page: &[u16],
    rows: &mut [u16],
    columns: &mut [u16],
    lengths: &mut [u16],
    room: &mut [u8],
) -> io::Result<()> {
    let r = repaint::told(repaint::propose(display, page, m, rows, columns, lengths, room));
    let n = usize::from(r.spans);
    let (rows, rows_beyond) = split(rows, n);
    let (columns, columns_beyond) = split(columns, n);
    let (lengths, lengths_beyond) = split(lengths, n);
    let (bytes, beyond) = split(room, usize::from(r.bytes));
    let spans = SpanList {
        rows,
        columns,
        lengths,
    };
    let kept = is_untouched(rows_beyond, 0xeeee)
        && is_untouched(columns_beyond, 0xeeee)
        && is_untouched(lengths_beyond, 0xeeee)
        && is_untouched(beyond, 0xee);
    write!(to, " answer={} spans={spans}", r.answer)?;
    write!(to, " bytes={} beyond={}", ByteString(bytes), kept as u8)
}
