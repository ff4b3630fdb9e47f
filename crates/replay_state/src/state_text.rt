// The state at the end of a trace line.
use crate::send::SendingText;
use crate::sequence::spelled;
use replay_text::trace::{ByteString, Hex};
use rules::{Core, Modes, Screen, Setup, State, Text};
use std::io::Write;
use std::{fmt, io};

pub fn state(to: &mut impl Write, s: &State) -> io::Result<()> {
    screen(to, &s.core.screen)?;
    modes(to, &s.core.modes)?;
    set_up(to, &s.setup)?;
    under_way(to, s)?;
    texts(to, &s.setup)?;
    personality(to, &s.core)?;
    last(to, s)
}

fn screen(to: &mut impl Write, s: &Screen) -> io::Result<()> {
    write!(
        to,
        " active={} cursors={},{} split={}",
        s.active, s.cursor0, s.cursor1, s.split
    )
}

// Flags as the bits of a number, the first the highest; of more than 64 the last 64.
fn bits(flags: &[bool]) -> u64 {
    flags.iter().fold(0, |n, b| n << 1 | u64::from(*b))
}

fn modes(to: &mut impl Write, m: &Modes) -> io::Result<()> {
    let modes = bits(&[
        m.protect,
        m.writeprotect,
        m.insert,
        m.autoscroll,
        m.locked,
        m.local,
    ]);
    write!(to, " modes={modes:06b}")
}

fn set_up(to: &mut impl Write, u: &Setup) -> io::Result<()> {
    write!(
        to,
        " tabs={} attributes={} features={} keys={}",
        Tabs(&u.tabs),
        Hex(&u.attributes),
        Hex(&u.features),
        ShortTexts(&u.keys)
    )
}

// The bells, and the sequence.
fn under_way(to: &mut impl Write, s: &State) -> io::Result<()> {
    write!(
        to,
        " bells={} pending={}",
        s.core.bells,
        spelled(s.core.pending, &s.gathered)
    )
}

// The host message, the labels, and whether the shifted line is on.
fn texts(to: &mut impl Write, u: &Setup) -> io::Result<()> {
    write!(
        to,
        " message={} labels={} shifted={}",
        Message(&u.message),
        ShortTexts(&u.labels),
        u.shifted as u8
    )
}

// The personality, and the remembered attribute.
fn personality(to: &mut impl Write, core: &Core) -> io::Result<()> {
    write!(
        to,
        " personality={} remembered={}",
        core.personality as u8, core.attribute
    )
}

// The send under way, the state's own width, and the wish.
fn last(to: &mut impl Write, s: &State) -> io::Result<()> {
    write!(
        to,
        " sending={} wide={} wish={}",
        SendingText(s.sending),
        s.core.screen.wide as u8,
        s.setup.wish as u8
    )
}

// Tab stops, four columns to a digit, column 1 first.
#[derive(Clone, Copy)]
struct Tabs<'a>(&'a [bool; 132]);

impl fmt::Display for Tabs<'_> {
    fn fmt<W: fmt::Write>(&self, f: &mut fmt::Formatter<W>) -> fmt::Result {
        let stops = self.0;
        let first = bits(&stops[..64]);
        let second = bits(&stops[64..128]);
        let last = bits(&stops[128..]);
        write!(f, "{first:016x}{second:016x}{last:x}")
    }
}

// The front of a text of so many bytes, and `+` where there are more.
#[derive(Clone, Copy)]
struct Front<'a> {
    len: u8,
    bytes: &'a [u8],
}

impl<'a> Front<'a> {
    fn shown(&self) -> &'a [u8] {
        &self.bytes[..usize::from(self.len).min(self.bytes.len())]
    }

    fn more(&self) -> &'static str {
        if self.bytes.len() < usize::from(self.len) {
            "+"
        } else {
            ""
        }
    }
}

// The host message's first 46 bytes.
#[derive(Clone, Copy)]
struct Message<'a>(&'a Text<46>);

impl fmt::Display for Message<'_> {
    fn fmt<W: fmt::Write>(&self, f: &mut fmt::Formatter<W>) -> fmt::Result {
        let t = Front {
            len: self.0.len,
            bytes: &self.0.bytes,
        };
        write!(f, "{}{}", ByteString(t.shown()), t.more())
    }
}

// The keys or labels that are set, each with its number and its first 8 bytes, parted by commas; `-` where there are none.
#[derive(Clone, Copy)]
struct ShortTexts<'a>(&'a [Text<8>]);

impl fmt::Display for ShortTexts<'_> {
    fn fmt<W: fmt::Write>(&self, f: &mut fmt::Formatter<W>) -> fmt::Result {
        let mut parting = "";
        for (i, k) in self.0.iter().enumerate() {
            if k.len != 0 {
                let t = Front {
                    len: k.len,
                    bytes: &k.bytes,
                };
                write!(f, "{parting}{i}:{}{}", Hex(t.shown()), t.more())?;
                parting = ",";
            }
        }
        if parting.is_empty() {
            write!(f, "-")?;
        }
        Ok(())
    }
}
