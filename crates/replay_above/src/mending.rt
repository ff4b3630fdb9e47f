// The line that mends the page.
use replay_text::rooms::{is_untouched, split};
use replay_text::trace::Numbers;
use rules::Personality;
use std::io;
use std::io::Write;

// The entries, and whether the list behind them is as it was.
fn entries(to: &mut impl Write, list: &[u16], written: usize) -> io::Result<()> {
    let (entries, beyond) = split(list, written);
    let kept = is_untouched(beyond, 0xeeee) as u8;
    let entries = Numbers {
        list: entries,
        in_fours: true,
    };
    write!(to, " entries={entries} beyond={kept}")
}

pub fn mend(
    to: &mut impl Write,
    m: Personality,
    page: &mut [u16],
    list: &mut [u16],
) -> io::Result<()> {
    let r = mend::mend_given(mend::mend(page, m, list));
    write!(to, " answer={} needed={}", r.answer, r.needed)?;
    let written = if r.answer == 0 {
        usize::from(r.needed) * 4
    } else {
        0
    };
    entries(to, list, written)
}
