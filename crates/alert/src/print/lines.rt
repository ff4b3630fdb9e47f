// The host message above the page's frame, and the labels of the shown line below it, each where there is one.
ghost use Rattle.std.specs.Prelude.{◌≡◌, ◌+◌, ◌<◌, ◌≤◌, [], get_or};
ghost use Rattle.rules.specs.Cell.{pick};
ghost use Rattle.rules.specs.State.{label_place};

use crate::cells::trimmed;
use crate::print::out;
use crate::put;
use rules::Text;
use std::io;

// A line above or below the frame, in the columns of the page.
fn show_line(rt: &impl Print, text: &[u8]) -> io::Result<()> {
    out::text(rt, b"    ")?;
    out::text(rt, text)?;
    out::text(rt, b"\n")
}

pub fn message(rt: &impl Print, m: Text<46>) -> io::Result<()> {
    if m.len == 0 {
        return Ok(());
    }
    show_line(rt, &m.bytes[..(m.len as usize).min(46)])
}

// Label i of the shown line, from 0: of the fields from 50h while the shifted line is on, from 30h while it is off.
fn shown(labels: [Text<8>; 16], shifted: bool, i: usize) -> Text<8>
    requires { i < 8 }
    ensures { result ≡ get_or labels (label_place (pick shifted 0x50 0x30 + i)) record { len = 0; bytes = [] } }
{
    if shifted {
        return labels[8 + i];
    }
    labels[i]
}

// Puts a label on a line, in brackets; an empty one leaves its ten columns blank.
fn draw_label(line: &mut [u8], at: usize, k: Text<8>)
    requires { at ≤ 70 }
{
    if k.len == 0 {
        return;
    }
    put::byte(line, at, b'[');
    put::bytes(line, at + 1, &k.bytes[..(k.len as usize).min(8)]);
    put::byte(line, at + 9, b']');
}

fn draw_labels(line: &mut [u8], all: [Text<8>; 16], shifted: bool) {
    for i in 0..8 {
        draw_label(line, i * 10, shown(all, shifted, i));
    }
}

pub fn labels(rt: &impl Print, all: [Text<8>; 16], shifted: bool) -> io::Result<()> {
    let mut line = [b' '; 80];
    draw_labels(&mut line, all, shifted);
    let n = trimmed(&line);
    if n == 0 {
        return Ok(());
    }
    show_line(rt, &line[..n])
}
