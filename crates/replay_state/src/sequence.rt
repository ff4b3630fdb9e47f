// The sequence under way, as text: the bytes since and with ESC, and `+` where a text was too long or had a bad byte.
ghost use Rattle.std.specs.Prelude.{◌≤◌};

use replay_text::trace::ByteString;
use rules::{Argument, Pending, Slot};
use std::fmt;

// No spelling has more bytes.
const MOST: usize = 49;

// The first `len` of `bytes`, and whether `+` follows.
#[derive(Clone, Copy)]
pub struct Spelling {
    len: usize,
    bytes: [u8; MOST],
    over: bool,
    ghost within: { len ≤ 49 },
}

impl Spelling {
    fn new() -> Spelling {
        Spelling {
            len: 0,
            bytes: [0; MOST],
            over: false,
        }
    }

    // What there is no room for is left out.
    fn push(&mut self, b: u8) {
        if self.len < MOST {
            self.bytes[self.len] = b;
            self.len += 1;
        }
    }

    fn extend(&mut self, bytes: &[u8]) {
        for b in bytes {
            self.push(*b);
        }
    }

    // The last digits of a number, so many of them: no sequence has more than three under way.
    fn digits(&mut self, count: u8, n: u16) {
        for (place, unit) in [(3, 100), (2, 10), (1, 1)] {
            if place <= count {
                self.push(b'0' + (n / unit % 10) as u8);
            }
        }
    }

    // ESC z and its value, or ESC F.
    fn slot(&mut self, x: Slot) {
        match x {
            Slot::Key(v) | Slot::Label(v) => self.extend(&[b'z', v]),
            Slot::Message => self.push(b'F'),
        }
    }

    pub fn as_slice(&self) -> &[u8] {
        &self.bytes[..self.len]
    }

    // Whether it is these bytes, and `+` or not.
    pub fn is(&self, bytes: &[u8], over: bool) -> bool {
        self.over == over && self.as_slice() == bytes
    }
}

impl fmt::Display for Spelling {
    fn fmt<W: fmt::Write>(&self, f: &mut fmt::Formatter<W>) -> fmt::Result {
        let more = if self.over { "+" } else { "" };
        write!(f, "{}{more}", ByteString(self.as_slice()))
    }
}

// What follows ESC.
fn awaited(a: Argument) -> &'static [u8] {
    match a {
        Argument::Address => b"=",
        Argument::Segment => b"-",
        Argument::Split => b"x",
        Argument::SplitRow => b"x1",
        Argument::Attribute => b"G",
        Argument::Graphic => b"H",
        Argument::FillAttribute => b"!",
        Argument::FillCode => b".",
        Argument::Feature => b"`",
        Argument::FieldAttribute => b"A",
        Argument::Slot => b"z",
    }
}

// The spelling of a sequence; `gathered` are the bytes gathered of a text. A spoilt text is left out.
pub fn spelled(p: Pending, gathered: &[u8; 46]) -> Spelling {
    let mut s = Spelling::new();
    if matches!(p, Pending::Idle) {
        return s;
    }
    s.push(0x1b);
    match p {
        Pending::Idle | Pending::Escape => (),
        Pending::Awaits(a) => s.extend(awaited(a)),
        Pending::AddressRow(r) => s.extend(&[b'=', r]),
        Pending::SegmentNumber(n) => s.extend(&[b'-', n]),
        Pending::SegmentRow(n, r) => s.extend(&[b'-', n, r]),
        Pending::DecimalRow(k, n) => {
            s.push(b'a');
            s.digits(k, u16::from(n));
        }
        Pending::DecimalColumn(row, k, n) => {
            s.push(b'a');
            s.digits(2, u16::from(row));
            s.push(b'R');
            s.digits(k, n);
        }
        Pending::FieldNumber(n) => s.extend(&[b'A', n]),
        Pending::Text(x, n) => {
            s.slot(x);
            s.extend(&gathered[..usize::from(n).min(46)]);
        }
        Pending::Spoilt(x) => {
            s.slot(x);
            s.over = true;
        }
    }
    s
}
