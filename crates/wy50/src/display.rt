// Repainting a distant display, for C: the judges of spans and of bytes, and the proposer, its spans as a flat list of numbers.
ghost use Rattle.std.specs.Prelude.{◌≡◌, ◌*◌, ◌≤◌, length, take};
ghost use Rattle.rules.specs.Room.{over};
ghost use Rattle.repaint.specs.Spans.{SpansVerdict, spans_of};
ghost use Rattle.wy50.specs.Repainting.{RawBytesVerdict, span_numbers, numbers_rule, raw_propose, RawProposes, span_room};

use crate::unpack::personality_at;
use repaint::{ProposeResult, Span, judge_bytes, judge_spans, propose, told};
use rules::Personality;

// Judges a list of spans. Ruled out: one that compares a page with itself.
#[unsafe(no_mangle)]
pub extern "C" fn wy50_judge_spans(before: &[u16], after: &[u16], spans: &[Span]) -> u8
    ensures { SpansVerdict before.now after.now spans.now result }
{
    judge_spans(before, after, spans).number()
}

// Judges bytes by the terminal of a personality. Ruled out: one that takes a number that is no personality, or feeds the other one's terminal.
#[unsafe(no_mangle)]
pub extern "C" fn wy50_judge_bytes(
    before: &[u16],
    after: &[u16],
    personality: u8,
    bytes: &[u8],
) -> u8
    ensures { RawBytesVerdict personality before.now after.now bytes.now result }
{
    let Some(personality) = personality_at(personality) else {
        return 7;
    };
    judge_bytes(before, after, personality, bytes).number()
}

// How many spans, of the 960 that there are at most, so many numbers have room for.
fn room_for(numbers: usize) -> usize
    ensures { result ≡ span_room numbers }
{
    let n = numbers / 3;
    n.min(960)
}

// The first n spans of three lists, at the front of a list of numbers. By index: an iterator over chunks of three would be zipped with three lists.
fn put_spans(rows: &[u16], columns: &[u16], lengths: &[u16], n: usize, numbers: &mut [u16])
    requires { ((n ≤ length rows.now) × ((n ≤ length columns.now) × (n ≤ length lengths.now)))
        × ((n ≤ 960) × (3 * n ≤ length numbers.old)) }
    ensures { numbers.new
        ≡ over (span_numbers (spans_of (take n rows.now) (take n columns.now) (take n lengths.now)))
        numbers.old }
{
    for i in 0..n {
        numbers[3 * i] = rows[i];
        numbers[3 * i + 1] = columns[i];
        numbers[3 * i + 2] = lengths[i];
    }
}

// Proposes spans into three lists that hold as many as there is room for, and then their numbers. Where it refuses there are no spans, so no number
// is written.
fn propose_beside(
    before: &[u16],
    after: &[u16],
    personality: Personality,
    rows: &mut [u16],
    columns: &mut [u16],
    lengths: &mut [u16],
    numbers: &mut [u16],
    bytes: &mut [u8],
) -> ProposeResult
    requires { (length rows.old ≡ span_room (length numbers.old))
        × ((length columns.old ≡ length rows.old) × (length lengths.old ≡ length rows.old)) }
    ensures { RawProposes (numbers_rule personality before.now after.now numbers.old bytes.old) result
        numbers.new bytes.new }
{
    let t = told(propose(before, after, personality, rows, columns, lengths, bytes));
    put_spans(rows, columns, lengths, t.spans as usize, numbers);
    t
}

// Proposes spans, as numbers, and bytes. Ruled out: one that writes the columns first, takes a span more than fits, or writes numbers and then
// refuses.
#[unsafe(no_mangle)]
pub extern "C" fn wy50_propose_numbers(
    before: &[u16],
    after: &[u16],
    personality: u8,
    numbers: &mut [u16],
    bytes: &mut [u8],
) -> ProposeResult
    ensures { RawProposes (raw_propose personality before.now after.now numbers.old bytes.old) result
        numbers.new bytes.new }
{
    let Some(personality) = personality_at(personality) else {
        return ProposeResult {
            answer: 7,
            spans: 0,
            bytes: 0,
        };
    };
    let room = room_for(numbers.len());
    let mut rows: [u16; 960] = [0; 960];
    let mut columns: [u16; 960] = [0; 960];
    let mut lengths: [u16; 960] = [0; 960];
    propose_beside(
        before,
        after,
        personality,
        &mut rows[0..room],
        &mut columns[0..room],
        &mut lengths[0..room],
        numbers,
        bytes,
    )
}
